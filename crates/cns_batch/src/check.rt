ghost use Rattle.std.specs.Prelude.{◌≡◌, ◌++◌, codes, IfOk, IfErr, OnOk, is_ok, string_bytes};
ghost use Rattle.std.specs.Io.KnownBytes.{Appends};
ghost use Rattle.cns_ids.specs.Cusip.{read_cusip};
ghost use Rattle.cns_batch.specs.Check.{answer_text, cusip_line, EndsLine};

use crate::output::write_text;
use cns_ids::{Cusip, CusipFault};
use cns_input::BatchFault;
use std::alloc::{AllocError, Global};
use std::io::Write;

// The line that names an answer.
fn answer_line(alloc: Global, answer: Result<Cusip, CusipFault>) -> Result<String, AllocError>
    ensures { IfOk result (λ t. string_bytes t ≡ answer_text answer ++ codes "\n") }
{
    match answer {
        Ok(_) => format!(in alloc; "ok\n"),
        Err(CusipFault::Length) => format!(in alloc; "Length\n"),
        Err(CusipFault::BadChar { place }) => format!(in alloc; "BadChar {place}\n"),
        Err(CusipFault::CheckDigit { want }) => format!(in alloc; "CheckDigit {want}\n"),
    }
}

/// Reads a text as a CUSIP, writes the line that names the answer, and answers whether it is one.
///
/// The line is `ok`, or the text's first fault: `Length`, `BadChar` with the place, counted from 1,
/// or `CheckDigit` with the digit that would be right (this project's own format). Refuses `Memory`,
/// where nothing was written, and `Write`, where a first part of the line was.
pub fn check_cusip<W: Write>(alloc: Global, text: &[u8], writer: &mut W) -> Result<bool, BatchFault>
    ensures ok { OnOk result (Appends (W.contents writer.old) (W.contents writer.new) (cusip_line text.now)) }
    ensures answer { IfOk result (λ is_cusip. is_cusip ≡ is_ok (read_cusip text.now)) }
    ensures err { IfErr result (λ e. EndsLine e (cusip_line text.now) (W.contents writer.old) (W.contents writer.new)) }
{
    let answer = Cusip::read(text);
    let Ok(line) = answer_line(alloc, answer) else {
        return Err(BatchFault::Memory);
    };
    match write_text(writer, line.as_bytes()) {
        Ok(()) => Ok(answer.is_ok()),
        Err(_) => Err(BatchFault::Write),
    }
}
