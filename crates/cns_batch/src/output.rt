ghost use Rattle.std.specs.Prelude.{◌≡◌, ℕ, ◌+◌, ◌-◌, ◌≤◌, length, take, drop, OnOk, OnErr, IfErr};
ghost use Rattle.std.specs.Io.KnownBytes.{Appends, Keeps};
ghost use Rattle.cns_batch.specs.declared.fault.OutputFault.TheVariants.{Write as write_fault};

use crate::fault::{OutputFault, Told};
use std::io::Write;

// Writes all of a text, or a part at its front.
pub(crate) fn write_text<W: Write>(writer: &mut W, text: &[u8]) -> Told
    ensures ok { OnOk result (Appends (W.contents writer.old) (W.contents writer.new) text.now) }
    ensures err { OnErr result ((k : ℕ) × (k ≤ length text.now) × Appends (W.contents writer.old) (W.contents writer.new) (take k text.now)) }
    ensures kind { IfErr result (λ e. e ≡ write_fault) }
{
    let mut done = 0;
    while done < text.len() {
        let (_, rest) = text.split_at(done);
        match writer.write(rest) {
            Ok(0) | Err(_) => return Err(OutputFault::Write),
            Ok(n) => done += n,
        }
    }
    Ok(())
}

// Has a writer hand on what it holds.
pub(crate) fn hand_on<W: Write>(writer: &mut W) -> Told
    ensures keeps { Keeps (W.contents writer.old) (W.contents writer.new) }
    ensures kind { IfErr result (λ e. e ≡ write_fault) }
{
    match writer.flush() {
        Ok(()) => Ok(()),
        Err(_) => Err(OutputFault::Write),
    }
}
