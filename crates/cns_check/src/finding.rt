ghost use Rattle.std.specs.Prelude.{◌≡◌};
ghost use Rattle.cns_check.specs.Findings.{head_text};
ghost use Rattle.cns_check.specs.Kept.{part_of, part_of_table};

use cns_depository::OpeningFault;
use cns_trades::RowFault;

/// A line that begins a section.
#[derive(Clone, Copy, PartialEq, Eq, Debug)]
pub enum Head {
    Openings,
    Trades,
    Script,
}

/// A section of rows.
#[derive(Clone, Copy, PartialEq, Eq, Debug)]
pub enum Table {
    Openings,
    Trades,
}

/// What is wrong somewhere in an input. Rows are counted from 1 behind the header of their section, and the
/// lines of the script from 1, as a run counts them.
#[derive(Clone, Copy, PartialEq, Eq, Debug)]
pub enum Finding {
    /// No line is this head.
    NoHead(Head),
    /// Each head has its line, but they do not stand in their order, or the first one not in the first line.
    HeadOrder,
    /// The first record of the section is not its header.
    NoHeader(Table),
    /// A row of the section has this fault.
    Row {
        table: Table,
        row: u64,
        fault: RowFault,
    },
    /// A row of openings is an opening, against which this speaks.
    OpeningRefused {
        row: u64,
        fault: OpeningFault,
    },
    /// A line of the script is no command, or none that may stand there.
    Line {
        number: u64,
    },
}

/// A part of an input.
#[derive(Clone, Copy, PartialEq, Eq, Debug)]
pub enum Part {
    /// Heads and headers.
    Heads,
    Openings,
    Trades,
    Script,
}

impl Head {
    /// The line without its end.
    pub fn text(self) -> &'static str
        ensures { result.now ≡ head_text self }
    {
        match self {
            Head::Openings => "[openings]",
            Head::Trades => "[trades]",
            Head::Script => "[script]",
        }
    }
}

impl Table {
    /// The fields of the header.
    pub fn header(self) -> &'static [&'static str] {
        match self {
            Table::Openings => &["account", "cusip", "shares"],
            Table::Trades => &["trade", "settle", "buyer", "seller", "cusip", "quantity"],
        }
    }

    // The part of an input that it is.
    fn part(self) -> Part
        ensures { result ≡ part_of_table self }
    {
        match self {
            Table::Openings => Part::Openings,
            Table::Trades => Part::Trades,
        }
    }
}

impl Finding {
    /// The part of the input in which it stands.
    pub fn part(self) -> Part
        ensures { result ≡ part_of self }
    {
        match self {
            Finding::NoHead(_) | Finding::HeadOrder | Finding::NoHeader(_) => Part::Heads,
            Finding::Row { table, .. } => table.part(),
            Finding::OpeningRefused { .. } => Part::Openings,
            Finding::Line { .. } => Part::Script,
        }
    }
}
