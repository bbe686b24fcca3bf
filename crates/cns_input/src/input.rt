ghost use Rattle.std.specs.Prelude.{◌≡◌, ◌+◌, ◌≤◌, length, vec_len, IfOk, IfErr, OnOk};
ghost use Rattle.std.specs.Io.KnownBytes.{IsAtEnd, ReadConsumes};
ghost use Rattle.cns_input.specs.Reading.{HasGiven, IsInput, IsReadFault};

use crate::fault::BatchFault;
use crate::steps::Steps;
use std::alloc::Global;
use std::io::Read;
use std::sync::ledger::Ledger;

// The most bytes of an input.
const MAX_INPUT: usize = 67_108_864;

// One read call.
fn read_once<R: Read, L: Ledger>(
    reader: &mut R,
    buf: &mut [u8],
    steps: &mut Steps<L>,
) -> std::io::Result<usize>
    ensures bound { IfOk result (λ n. n ≤ length buf.new) }
    ensures bytes { ReadConsumes (R.remaining reader.old) (R.remaining reader.new) result buf.new }
    ensures step { steps.new ≡ steps.old + 1 }
{
    steps.tick();
    reader.read(buf)
}

/// Reads an input to its end.
///
/// Refuses `Read` where the reader fails, `TooLong` where it gives more than 67,108,864 bytes, and
/// `Memory` where there is none for them. `steps` counts the read calls, at most 67,108,866.
pub fn read_input<R: Read, L: Ledger>(
    alloc: Global,
    reader: &mut R,
    steps: &mut Steps<L>,
) -> Result<Vec<u8>, BatchFault>
    ensures text { IfOk result (λ t. IsInput (R.remaining reader.old) t.items) }
    ensures size { IfOk result (λ t. length t.items ≤ 67108864) }
    ensures given { HasGiven result (R.remaining reader.old) (R.remaining reader.new) }
    ensures end { OnOk result (IsAtEnd (R.remaining reader.new)) }
    ensures kind { IfErr result IsReadFault }
    ensures reads { steps.new ≤ steps.old + 67108866 }
{
    let mut text = Vec::new(alloc);
    let mut buf = [0u8; 8192];
    for turn in 0..67_108_866u32 {
        let n = match read_once(reader, &mut buf, steps) {
            Ok(n) => n,
            Err(_) => return Err(BatchFault::Read),
        };
        if n == 0 {
            return Ok(text);
        }
        if n > MAX_INPUT - text.len() {
            return Err(BatchFault::TooLong);
        }
        if text.extend_from_slice(&buf[..n]).is_err() {
            return Err(BatchFault::Memory);
        }
    }
    unreachable!()
}
