ghost use Rattle.std.specs.Prelude.{◌≡◌, ◌++◌, ◌∷◌, [], ℕ, List, OnOk};
ghost use Rattle.cns_check.specs.Kept.{CountsOne, IsOf, KeepsOne, count_of};
ghost use Rattle.cns_check.specs.declared.finding.Finding.{Finding};

use crate::excerpt::excerpt;
use crate::finding::{Finding, Part};
use std::alloc::{AllocError, Global};

/// Something that is wrong, and where.
#[derive(Drop)]
pub struct Found {
    pub finding: Finding,
    /// The line of the text, from 1, and the last one where a row goes over several.
    pub line: u64,
    pub last: u64,
    /// The first bytes of what stands there: the field, the line or the header; of the trade's id; and how
    /// many fields the row has, and the place of this one, counted from 1.
    pub text: Vec<u8>,
    pub id: Vec<u8>,
    pub fields: usize,
    pub place: usize,
}

/// All that is wrong with an input: how much of each part, and the first 1,000 of each part, in their order.
#[derive(Drop)]
pub struct Findings {
    pub first: Vec<Found>,
    pub heads: u64,
    pub openings: u64,
    pub trades: u64,
    pub script: u64,
}

/// What stands where something is found.
#[derive(Clone, Copy)]
pub(crate) struct Place<'a> {
    pub(crate) line: u64,
    pub(crate) last: u64,
    pub(crate) text: &'a [u8],
    pub(crate) id: &'a [u8],
    pub(crate) fields: usize,
    pub(crate) place: usize,
}

impl<'a> Place<'a> {
    /// A line.
    pub(crate) fn of_line(line: u64, text: &'a [u8]) -> Place<'a> {
        Place {
            line,
            last: line,
            text,
            id: &[],
            fields: 0,
            place: 0,
        }
    }
}

/// How many of a part are kept.
pub(crate) const MOST_OF_A_PART: u64 = 1000;

impl Findings {
    /// Nothing yet.
    pub(crate) fn new(alloc: Global) -> Findings
        ensures { IsOf result [] }
    {
        Findings {
            first: Vec::new(alloc),
            heads: 0,
            openings: 0,
            trades: 0,
            script: 0,
        }
    }

    /// How many stand in a part.
    pub fn count(&self, part: Part) -> u64
        ensures { result ≡ count_of part self.now }
    {
        match part {
            Part::Heads => self.heads,
            Part::Openings => self.openings,
            Part::Trades => self.trades,
            Part::Script => self.script,
        }
    }

    // Counts one more in a part. No memory holds a text with more than 64 bits count.
    fn count_one(&mut self, part: Part) -> Result<(), AllocError>
        ensures { OnOk result (CountsOne part self.old self.new) }
    {
        let count = self.count(part).checked_add(1).ok_or(AllocError)?;
        match part {
            Part::Heads => self.heads = count,
            Part::Openings => self.openings = count,
            Part::Trades => self.trades = count,
            Part::Script => self.script = count,
        }
        Ok(())
    }

    // Keeps one with its place, where fewer of its part were counted than are kept.
    fn keep(&mut self, alloc: Global, finding: Finding, place: &Place<'_>) -> Result<(), AllocError>
        ensures { OnOk result (KeepsOne finding self.old self.new) }
    {
        if self.count(finding.part()) >= MOST_OF_A_PART {
            return Ok(());
        }
        let text = excerpt(alloc, place.text)?;
        let id = excerpt(alloc, place.id)?;
        self.first.push(Found {
            finding,
            line: place.line,
            last: place.last,
            text,
            id,
            fields: place.fields,
            place: place.place,
        })?;
        Ok(())
    }

    /// Adds what is found at a place.
    pub(crate) fn add(
        &mut self,
        alloc: Global,
        finding: Finding,
        place: &Place<'_>,
    ) -> Result<(), AllocError>
        ensures { OnOk result ((all : List Finding) → IsOf self.old all → IsOf self.new (all ++ finding ∷ [])) }
    {
        self.keep(alloc, finding, place)?;
        self.count_one(finding.part())
    }
}
