//! What there is to ask for.

ghost use Rattle.std.specs.Prelude.{◌≡◌};
ghost use Rattle.cns_command_line.specs.CommandLine.{names_any};

/// Where a text comes from.
#[derive(Drop)]
pub enum Source {
    /// Standard input.
    Standard,
    /// A file of this name.
    File(String),
    /// The text that files of these names make.
    Named(Names),
}

/// The names of a file of openings, of files of trades and of a file of a script.
#[derive(Drop)]
pub struct Names {
    pub openings: Option<String>,
    pub trades: Vec<String>,
    pub script: Option<String>,
}

impl Names {
    // Whether a file is named.
    pub(crate) fn any(&self) -> bool
        ensures { result ≡ names_any self.now }
    {
        self.openings.is_some() || !self.trades.is_empty() || self.script.is_some()
    }
}

/// How a batch is to be run: over the journals in this folder where one is given, and else over keepers in
/// memory. So many workers serve its lots; where there are none, its single events do. It is shaken by this
/// number where one is given. Where it is strict, the lines that tell of what was not taken are counted. How far
/// it is, is told on standard error where that was asked for once and is a terminal, or was asked for twice. Where it is
/// to be intact, journals with damage, and openings other than those of the first such run in the folder, are refused.
#[derive(Drop)]
pub struct Manner {
    pub journal: Option<String>,
    pub workers: usize,
    pub shake: Option<u64>,
    pub strict: bool,
    pub progress: u8,
    pub intact: bool,
}

/// A folder of journals, and the file of the openings where one is named.
#[derive(Drop)]
pub struct Folder {
    pub name: String,
    pub openings: Option<String>,
}

/// What is to be read from journals.
#[derive(Drop)]
pub enum Audit {
    /// `cnsd journal dump FILE`: what the file of a journal holds, as CSV or in lines.
    Dump {
        file: String,
        csv: bool,
    },
    /// `cnsd journal check DIR`: what is wrong with both journals of a folder.
    Check {
        folder: Folder,
        verbose: bool,
    },
    /// `cnsd explain DIR MEMBER CUSIP`: what a position and a balance come from.
    Explain {
        folder: Folder,
        member: String,
        issue: String,
    },
}

/// What the command line asks for.
#[derive(Drop)]
pub enum Request {
    /// `cnsd run`: one batch of a text to standard output.
    Run { source: Source, manner: Manner },
    /// `cnsd check`: what is wrong with a text.
    Check(Source),
    /// `cnsd table`: the reports of a run as a table, or its last report alone.
    Table { last: bool },
    /// `cnsd cusip TEXT..`: whether these texts are CUSIPs.
    Cusips(Vec<String>),
    /// `cnsd journal` and `cnsd explain`: what journals hold.
    Audit(Audit),
}
