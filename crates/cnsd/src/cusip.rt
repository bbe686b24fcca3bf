//! Texts, each of which may be a CUSIP.

ghost use Rattle.std.specs.Prelude.{◌≡◌, ◌<◌, IfSome, length};

use crate::source::tell_awaited;
use cns_batch::check_cusip;
use cns_input::{BatchFault, Steps, line_size, line_text, read_input};
use std::alloc::Global;
use std::io;
use std::io::Write;
use std::sync::ledger::{Blank, Ledger};

// The first line of a text, without its end, and what stands behind it; None where no line is left.
fn next_line(text: &[u8]) -> Option<(&[u8], &[u8])>
    ensures { IfSome result (λ lines. length lines.1.now < length text.now) }
{
    if text.is_empty() {
        return None;
    }
    let (line, after) = text.split_at(line_size(text));
    Some((line_text(line), after))
}

// Whether each line of a text is a CUSIP; one line is written for each.
fn check_lines<W: Write>(alloc: Global, text: &[u8], writer: &mut W) -> Result<bool, BatchFault> {
    let mut all = true;
    let mut rest = text;
    while let Some((line, after)) = next_line(rest) {
        all &= check_cusip(alloc, line, writer)?;
        rest = after;
    }
    Ok(all)
}

// The same of standard input.
fn check_standard<W: Write, L: Ledger>(
    rt: &HostRuntime,
    steps: &mut Steps<L>,
    writer: &mut W,
) -> Result<bool, BatchFault> {
    tell_awaited(rt, "cnsd: texts are awaited here, one a line, up to Ctrl-D");
    let mut reader = rt.reader();
    let text = read_input(rt.alloc(), &mut reader, steps)?;
    check_lines(rt.alloc(), text.as_slice(), writer)
}

/// Tells of each text on standard output whether it is a CUSIP, and of each line of standard input where the
/// text is `-`; the exit status, 0 where all are.
#[inline(never)]
pub(crate) fn check_texts<L: Ledger>(
    rt: &HostRuntime,
    blank: Blank,
    texts: &[String],
) -> Result<u8, BatchFault>
    requires name { blank.name ≡ L.name }
    requires parts { blank.parts ≡ L.parts }
    requires some { 0 < L.parts }
{
    let mut steps = Steps::<L>::new(blank);
    let mut writer = io::writer(rt);
    let mut status = 0;
    for text in texts {
        let text = text.as_str();
        let all = if text == "-" {
            check_standard(rt, &mut steps, &mut writer)?
        } else {
            check_cusip(rt.alloc(), text.as_bytes(), &mut writer)?
        };
        if !all {
            status = 1;
        }
    }
    Ok(status)
}
