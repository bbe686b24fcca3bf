//! A disk in memory, for tests.

ghost use Rattle.std.specs.Prelude.{◌≡◌, ◌⊎◌, ◌<◌, ◌≤◌, ◌+◌, true, false, ◌&&◌, nat_le, nat_lt, [], ◌∷◌, ◌++◌, length, take, drop, vec_items, Some, None, IfOk, IsErr, OnOk, OnErr, reverse};
ghost use Rattle.cns_journal.specs.Disk.{CountsFailure, DoesNothing, EachImage, Follows, Only, Shortened, Torn, overwritten};
ghost use Rattle.cns_journal.specs.Keeper.{HasRisen};
ghost use Rattle.cns_journal.specs.MemCall.{IsTurn, step_of, steps_of};
ghost use Rattle.cns_journal.specs.MemDisk.{BeginsWithin, Calls, ComesBack, Cuts, Goes, IsFilled, IsIdle, Nothing, Starts, Syncs, Writes, after_call, content_of, images_of, is_unsynced, no_plan};

use crate::disk::{Disk, DiskFault, MAX_FILE_LEN};
use std::alloc::{AllocError, Global};
use std::marker::Model;

// What a call did to the file.
#[derive(Clone, Copy)]
enum Kind {
    Writes(u64),
    Cuts(u64),
    Syncs,
    Starts,
}

// A call that did something, the bytes that it wrote, and how many calls just before it did nothing.
#[derive(Drop)]
struct Call {
    idle: u64,
    kind: Kind,
    bytes: Vec<u8>,
}

impl Model for Call {
    ghost use Rattle.std.specs.Prelude.{vec_items};
    ghost use Rattle.cns_journal.specs.MemCall.{Noted, step_of};

    ghost Value = { Noted };

    ghost view = { λ c. record { step = step_of c.kind (vec_items c.bytes); idle = c.idle } };
}

// Which of the next calls fails, counted from 1 on, where 0 is none; and whether those after it do.
#[derive(Clone, Copy)]
struct Planned {
    call: u64,
    stops: bool,
}

// Nothing is planned.
const NO_PLAN: Planned = Planned {
    call: 0,
    stops: false,
};

// How a call ends.
#[derive(Clone, Copy)]
enum Turn {
    // It is done, if it can be.
    Runs,
    // It fails: a write or a cut has taken place.
    Fails,
    // The disk has stopped.
    Stopped,
}

/// A disk in memory, which fails as planned, where there is no memory, and where a call reaches past the
/// end of its file. It is honest, and keeps a list of all its calls. (This project's own rules.)
#[derive(Drop)]
pub struct MemDisk {
    content: Vec<u8>,
    calls: Vec<Call>,
    // How many calls after the last of these did nothing; at the largest count it stays.
    idle: u64,
    failures: u64,
    plan: Planned,
    alloc: Global,
}

impl Model for MemDisk {
    ghost use Rattle.std.specs.Prelude.{vec_items, reverse};
    ghost use Rattle.cns_journal.specs.MemCall.{idled, steps_of};
    ghost use Rattle.cns_journal.specs.MemDisk.{IsDisk, MemState};

    ghost Value = { MemState };

    ghost view = { λ d. record {
      steps = idled d.idle (steps_of (reverse (vec_items d.calls)));
      failures = d.failures;
      plan = record { call = d.plan.call; stops = d.plan.stops };
    } };

    ghost invariant = { λ d. IsDisk (vec_items d.content) (idled d.idle (steps_of (reverse (vec_items d.calls)))) };
}

// The file with these bytes written over it.
fn written(alloc: Global, file: &[u8], at: usize, bytes: &[u8]) -> Result<Vec<u8>, AllocError>
    requires { at ≤ length file.now }
    ensures { IfOk result (λ new. vec_items new ≡ overwritten file.now at bytes.now) }
{
    let mut new = file[..at].to_vec(alloc)?;
    new.extend_from_slice(bytes)?;
    if bytes.len() < file.len() - at {
        new.extend_from_slice(&file[at + bytes.len()..])?;
    }
    Ok(new)
}

// Puts a byte in the place of each that was written since the last sync.
fn fill_unsynced(file: &mut [u8], calls: &[Call], byte: u8)
    ensures { IsFilled (is_unsynced (steps_of (reverse calls.now))) byte file.old file.new }
{
    let mut left = calls.len();
    'calls: while left > 0 {
        left -= 1;
        let call = &calls[left];
        match call.kind {
            Kind::Syncs | Kind::Starts => return,
            Kind::Writes(at) => fill_range(file, at as usize, call.bytes.len(), byte),
            Kind::Cuts(_) => {}
        }
    }
}

// Puts a byte in the place of `count` others, as far as the file has them.
fn fill_range(file: &mut [u8], at: usize, count: usize, byte: u8)
    ensures { IsFilled (λ i. nat_le at i && nat_lt i (at + count)) byte file.old file.new }
{
    let end = at.saturating_add(count).min(file.len());
    for place in at..end {
        file[place] = byte;
    }
}

impl MemDisk {
    /// A disk whose file has these bytes, all of them on the disk, and with nothing planned.
    pub fn of(alloc: Global, file: &[u8]) -> Result<MemDisk, AllocError>
        ensures { IfOk result (λ disk. disk ≡ record { steps = Starts file.now ∷ []; failures = 0; plan = no_plan }) }
    {
        let content = file.to_vec(alloc)?;
        let mut calls = Vec::new(alloc);
        calls.push(Call {
            idle: 0,
            kind: Kind::Starts,
            bytes: file.to_vec(alloc)?,
        })?;
        Ok(MemDisk {
            content,
            calls,
            idle: 0,
            failures: 0,
            plan: NO_PLAN,
            alloc,
        })
    }

    /// Makes the n-th call from now fail, once; with 0, none. Where it is a write or a cut, it has taken
    /// place.
    pub fn fail_at(&mut self, call: u64)
        ensures { self.new ≡ record self.old { plan = record { call = call; stops = false } } }
    {
        self.plan = Planned { call, stops: false };
    }

    /// Makes the n-th call from now and all later ones fail, until the power is back; with 0, all. Where
    /// the n-th is a write or a cut, it has taken place; the later ones do nothing.
    pub fn stop_at(&mut self, call: u64)
        ensures { self.new ≡ record self.old { plan = record { call = call; stops = true } } }
    {
        self.plan = Planned { call, stops: true };
    }

    /// Brings the power back after a crash, with nothing planned. The file is as it was written, but
    /// that each byte written since the last sync is `fill`, where there is one; all of it is on the disk.
    /// Answers an error for want of memory, and then nothing has changed.
    pub fn power(&mut self, fill: Option<u8>) -> Result<(), AllocError>
        ensures ok { OnOk result (self.new ≡ record self.old { steps = Starts (content_of self.new.steps) ∷ self.old.steps; plan = no_plan }) }
        ensures filled { OnOk result (ComesBack fill self.old.steps (content_of self.new.steps)) }

        // So the file is one that the crash may have left.
        ensures image { OnOk result (images_of self.old.steps (content_of self.new.steps)) }
        ensures err { OnErr result (self.new ≡ self.old) }
    {
        let content = self.file_after(fill)?;
        let bytes = content.as_slice().to_vec(self.alloc)?;
        self.calls.reserve(1)?;
        self.calls.push_reserved(Call {
            idle: self.idle,
            kind: Kind::Starts,
            bytes,
        });
        self.idle = 0;
        self.content = content;
        self.plan = NO_PLAN;
        Ok(())
    }

    // The file once the power is back.
    fn file_after(&self, fill: Option<u8>) -> Result<Vec<u8>, AllocError>
        ensures filled { IfOk result (λ file. ComesBack fill self.now.steps (vec_items file)) }
        ensures image { IfOk result (λ file. images_of self.now.steps (vec_items file)) }
    {
        let mut file = self.content.as_slice().to_vec(self.alloc)?;
        let Some(byte) = fill else {
            return Ok(file);
        };
        fill_unsynced(file.as_mut_slice(), self.calls.as_slice(), byte);
        Ok(file)
    }

    /// The file as it reads.
    pub fn file(&self) -> &[u8]
        ensures { result.now ≡ content_of self.now.steps }
    {
        self.content.as_slice()
    }

    // How the next call ends. It is counted.
    fn turn(&mut self) -> Turn
        ensures value { IsTurn result self.old.plan }
        ensures leaves { self.new ≡ record self.old { plan = after_call self.old.plan } }
    {
        let Planned { call, stops } = self.plan;
        self.plan.call = call.saturating_sub(1);
        match call {
            1 => Turn::Fails,
            0 if stops => Turn::Stopped,
            _ => Turn::Runs,
        }
    }

    // Notes a call that did nothing.
    fn note_idle(&mut self)
        ensures { (self.new ≡ record self.old { steps = self.new.steps }) × IsIdle self.old.steps self.new.steps }
    {
        self.idle = self.idle.saturating_add(1);
    }

    // Counts a failure.
    fn fault(&mut self) -> DiskFault
        ensures same { self.new ≡ record self.old { failures = self.new.failures } }
        ensures failures { HasRisen self.old.failures self.new.failures }
    {
        self.failures = self.failures.saturating_add(1);
        DiskFault
    }

    // Ends a call that fails and did nothing.
    fn refuse(&mut self) -> DiskFault
        ensures steps { IsIdle self.old.steps self.new.steps }
        ensures failures { HasRisen self.old.failures self.new.failures }
        ensures plan { self.new.plan ≡ self.old.plan }
    {
        self.note_idle();
        self.fault()
    }

    // Does a call that makes this of the file, where there is memory; it has taken place also where it is
    // to fail.
    fn change(
        &mut self,
        content: Vec<u8>,
        kind: Kind,
        bytes: Vec<u8>,
        fails: bool,
    ) -> Result<(), DiskFault>
        requires content { vec_items content ≡ content_of (step_of kind (vec_items bytes) ∷ self.old.steps) }
        requires within { BeginsWithin (step_of kind (vec_items bytes)) (content_of self.old.steps) }
        ensures ok { OnOk result ((fails ≡ false) × (self.new ≡ record self.old { steps = step_of kind (vec_items bytes) ∷ self.old.steps })) }
        ensures err { OnErr result (IsIdle self.old.steps self.new.steps ⊎ ((fails ≡ true) × (self.new.steps ≡ step_of kind (vec_items bytes) ∷ self.old.steps))) }
        ensures failures { CountsFailure result self.old.failures self.new.failures }
        ensures plan { self.new.plan ≡ self.old.plan }
    {
        if self.calls.reserve(1).is_err() {
            return Err(self.refuse());
        }
        self.calls.push_reserved(Call {
            idle: self.idle,
            kind,
            bytes,
        });
        self.idle = 0;
        self.content = content;
        if fails {
            return Err(self.fault());
        }
        Ok(())
    }
}

impl Disk for MemDisk {
    ghost use Rattle.std.specs.Prelude.{true, length};
    ghost use Rattle.cns_journal.specs.MemDisk.{content_of, images_of, left_since_of, counts_now_of, only_now_of, reads_an_image_of};

    ghost honest = { λ _. true };

    ghost seen = { λ d. content_of d.steps };

    ghost images = { λ d. images_of d.steps };

    ghost moment = { λ d. length d.steps };

    ghost left_since = { λ d. left_since_of d.steps };

    ghost failures = { λ d. d.failures };

    ghost counts_now = { λ d t image honest le now. counts_now_of d.steps t image le now };

    ghost only_now = { λ d image honest left. only_now_of d.steps image left };

    ghost reads_an_image = { λ d honest. reads_an_image_of d.steps };

    fn len(&mut self) -> Result<u64, DiskFault>
        ensures value { IfOk result (λ bytes. bytes ≡ length (content_of self.old.steps)) }
        ensures limit { IfOk result (λ bytes. bytes ≤ MAX_FILE_LEN) }
        ensures calls { Calls Nothing result self.old self.new }
        ensures seen { content_of self.new.steps ≡ content_of self.old.steps }
        ensures crash { EachImage (images_of self.new.steps) (images_of self.old.steps) }
        ensures time { Goes self.old.steps self.new.steps }
        ensures failures { CountsFailure result self.old.failures self.new.failures }
    {
        let turn = self.turn();
        let len = self.content.len() as u64;
        match turn {
            Turn::Runs if len <= MAX_FILE_LEN => {
                self.note_idle();
                Ok(len)
            }
            _ => Err(self.refuse()),
        }
    }

    fn read(&mut self, at: u64, into: &mut [u8]) -> Result<(), DiskFault>
        ensures value { at + length into.old ≤ length (content_of self.old.steps)
            → OnOk result (into.new ≡ take (length into.old) (drop at (content_of self.old.steps))) }
        ensures outside { length (content_of self.old.steps) < at + length into.old → IsErr result }
        ensures calls { Calls Nothing result self.old self.new }
        ensures seen { content_of self.new.steps ≡ content_of self.old.steps }
        ensures crash { EachImage (images_of self.new.steps) (images_of self.old.steps) }
        ensures time { Goes self.old.steps self.new.steps }
        ensures failures { CountsFailure result self.old.failures self.new.failures }
    {
        let turn = self.turn();
        let at = at as usize;
        if !matches!(turn, Turn::Runs)
            || at > self.content.len()
            || into.len() > self.content.len() - at
        {
            return Err(self.refuse());
        }
        self.note_idle();
        let end = at + into.len();
        into.copy_from_slice(&self.content[at..end]);
        Ok(())
    }

    fn write_at(&mut self, at: u64, bytes: &[u8]) -> Result<(), DiskFault>
        ensures written { at ≤ length (content_of self.old.steps)
            → OnOk result (content_of self.new.steps ≡ overwritten (content_of self.old.steps) at bytes.now) }
        ensures outside { length (content_of self.old.steps) < at
            → DoesNothing (λ d. content_of d.steps) (λ d. images_of d.steps) result self.old self.new }
        ensures limit { OnOk result (at + length bytes.now ≤ MAX_FILE_LEN) }
        ensures calls { Calls (Writes at bytes.now) result self.old self.new }
        ensures crash { at ≤ length (content_of self.old.steps)
            → Follows (Torn at (length bytes.now)) (images_of self.old.steps) (images_of self.new.steps) }
        ensures time { Goes self.old.steps self.new.steps }
        ensures failures { CountsFailure result self.old.failures self.new.failures }
    {
        let turn = self.turn();
        if matches!(turn, Turn::Stopped)
            || at > self.content.len() as u64
            || at > MAX_FILE_LEN
            || bytes.len() as u64 > MAX_FILE_LEN - at
        {
            return Err(self.refuse());
        }
        let Ok(content) = written(self.alloc, self.content.as_slice(), at as usize, bytes) else {
            return Err(self.refuse());
        };
        let Ok(copy) = bytes.to_vec(self.alloc) else {
            return Err(self.refuse());
        };
        self.change(content, Kind::Writes(at), copy, matches!(turn, Turn::Fails))
    }

    fn cut(&mut self, len: u64) -> Result<(), DiskFault>
        ensures cut { len ≤ length (content_of self.old.steps)
            → OnOk result (content_of self.new.steps ≡ take len (content_of self.old.steps)) }
        ensures outside { length (content_of self.old.steps) < len
            → DoesNothing (λ d. content_of d.steps) (λ d. images_of d.steps) result self.old self.new }
        ensures calls { Calls (Cuts len) result self.old self.new }
        ensures crash { len ≤ length (content_of self.old.steps)
            → Follows (Shortened len) (images_of self.old.steps) (images_of self.new.steps) }
        ensures time { Goes self.old.steps self.new.steps }
        ensures failures { CountsFailure result self.old.failures self.new.failures }
    {
        let turn = self.turn();
        if matches!(turn, Turn::Stopped) || len > self.content.len() as u64 {
            return Err(self.refuse());
        }
        let Ok(content) = self.content[..len as usize].to_vec(self.alloc) else {
            return Err(self.refuse());
        };
        let bytes = Vec::new(self.alloc);
        self.change(content, Kind::Cuts(len), bytes, matches!(turn, Turn::Fails))
    }

    fn sync(&mut self) -> Result<(), DiskFault>
        ensures durable { OnOk result (Only (content_of self.new.steps) (images_of self.new.steps)) }
        ensures calls { Calls Syncs result self.old self.new }
        ensures seen { content_of self.new.steps ≡ content_of self.old.steps }
        ensures crash { EachImage (images_of self.new.steps) (images_of self.old.steps) }
        ensures time { Goes self.old.steps self.new.steps }
        ensures failures { CountsFailure result self.old.failures self.new.failures }
    {
        let Turn::Runs = self.turn() else {
            return Err(self.refuse());
        };
        if self.calls.reserve(1).is_err() {
            return Err(self.refuse());
        }
        self.calls.push_reserved(Call {
            idle: self.idle,
            kind: Kind::Syncs,
            bytes: Vec::new(self.alloc),
        });
        self.idle = 0;
        Ok(())
    }
}
