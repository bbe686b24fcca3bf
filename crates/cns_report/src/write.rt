ghost use Rattle.std.specs.Prelude.{◌≡◌, ◌+◌, ◌<◌, ◌≤◌, ◌++◌, length, OnOk, OnErr};
ghost use Rattle.cns_report.specs.Lines.{bytes_of_line};

use crate::line::Line;
use crate::text::Text;
use std::alloc::AllocError;

/// Adds a line to `out`, or nothing where memory is wanting.
pub fn write_line(out: &mut Text, line: Line) -> Result<(), AllocError>
    ensures ok { OnOk result (out.new.text ≡ out.old.text ++ bytes_of_line line) }
    ensures err { OnErr result (out.new.text ≡ out.old.text) }
    ensures room { out.old.room ≤ out.new.room }
    ensures full { OnErr result (out.old.room < length out.old.text + length (bytes_of_line line)) }
{
    out.tell(&line)
}
