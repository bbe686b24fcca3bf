ghost use Rattle.std.specs.Prelude.{◌≡◌, ◌+◌, ◌<◌, ◌≤◌, ◌^◌, [], false, length, true, vec_capacity, vec_len, IfErr, IfOk, OnErr, OnOk};
ghost use Rattle.cns_pool.specs.Tiles.{Tiles};
ghost use Rattle.cns_pool.specs.Pool.{asked_sum, intervals_of};
ghost use Rattle.cns_pool.specs.Replies.{AreDrawn};
ghost use Rattle.cns_pool.specs.Seen.{both_seen};
ghost use Rattle.cns_pool.specs.WorkerSeat.{EndWithin, Joins, Reserves, after_split, calls_out, new_worker, room_taken, split_off, worker_seeing};
ghost use Rattle.cns_pool.specs.FeederSeat.{feeder_after_pour, feeder_after_seal, feeder_seeing, new_feeder};
ghost use Rattle.cns_pool.specs.CellWords.{view_after_split, view_split_off};

use crate::any_seat::AnySeat;
use crate::feeder_seat::FeederSeat;
use crate::pool::{Asked, Closed, MAX_POOL};
use crate::rule::{
    ASKED, Closing, Feeding, Joining, Limits, LookPoured, MakeSeal, POURED, Part, Parting, Pour,
    Reserve, SEAL, Telling, Token, Words, asked_in,
};
use crate::ticket::{Reserved, Ticket, draw};
use crate::tickets::Tickets;
use crate::worker_seat::WorkerSeat;
use cns_ids::MemberNo;
use std::alloc::{AllocError, Global};
use std::marker::{Brand, Model};

/// A pool that threads share: a feeder's seat pours shares into it and seals it, while workers' seats
/// draw tickets from it. Each call is made with a seat of this cell.
///
/// It has two words, the poured shares and the asked ones, the seal among these. A reserve, a pour, a
/// seal and a look are each one atomic step on one word: they take no memory, wait for nobody and always
/// succeed. To contracts a cell is only its identity, which its seats show too. (This project's own
/// rules.)
#[derive(Drop)]
pub struct PoolCell {
    pub(crate) words: Words,
    alloc: Global,
}

impl Model for PoolCell {
    ghost use Rattle.std.specs.Prelude.{◌≡◌};
    ghost use Rattle.atomic_table.specs.Seated.{TableId, table_id_coded};

    ghost Value = { TableId };

    ghost coded = { table_id_coded };

    ghost view = { λ c. c.words.shared.table_id };

    ghost invariant = { λ c. (c.words.shared.table_id.words ≡ 2) × (c.words.shared.table_id.slots ≡ 0) };
}

impl PoolCell {
    /// A cell, with the seat that feeds it and the first seat that draws from it.
    ///
    /// At most `budget` shares may be asked of it, by at most `calls` reserves, and at most `pours`
    /// shares poured into it.
    pub fn open(
        alloc: Global,
        budget: u64,
        pours: u64,
        calls: u64,
    ) -> Result<(PoolCell, FeederSeat, WorkerSeat), AllocError>
        requires budget { budget ≤ MAX_POOL }
        requires pours { pours ≤ MAX_POOL }
        ensures feeder { IfOk result (λ opened. opened.1 ≡ new_feeder opened.0 pours) }
        ensures worker { IfOk result (λ opened. opened.2 ≡ new_worker opened.0 budget calls) }
    {
        let tickets = Vec::with_capacity(alloc, calls as usize)?;
        let limits = Limits {
            budget,
            pours,
            calls,
        };
        let (words, mut token) = Words::of_words(alloc, &[0, 0], &limits)?;
        let feeding = words.shared.split_seat::<Feeding>(&mut token);
        let feeder = FeederSeat {
            token: feeding,
            poured: 0,
            pour_room: pours,
            sealed: false,
        };
        let worker = WorkerSeat {
            token,
            tickets,
            budget,
            calls,
            made: 0,
            given: calls,
            room: 0,
        };
        Ok((PoolCell { words, alloc }, feeder, worker))
    }

    /// Draws a ticket for the member, or answers that the cell is sealed, which the seat has then seen.
    /// Either answer uses up these shares of the seat's budget, and one of its calls.
    pub fn reserve(&self, seat: &mut WorkerSeat, member: MemberNo, asked: u64) -> Reserved
        requires cell { seat.old.cell ≡ self.now }
        requires some { 1 ≤ asked }
        requires budget { asked ≤ seat.old.budget }
        requires calls { 0 < seat.old.calls }
        ensures { Reserves seat.old member asked seat.new result }
    {
        let shared = &self.words.shared;
        let found = asked_in(shared.fetch_add::<Reserve>(&mut seat.token, ASKED, asked));
        seat.budget -= asked;
        seat.calls -= 1;
        seat.made += 1;
        if found.sealed {
            return Reserved::Sealed;
        }
        draw(&mut seat.tickets, member, found.sum, asked)
    }

    /// Pours shares into the cell, possibly none. A sealed cell takes them too.
    pub fn pour(&self, seat: &mut FeederSeat, shares: u64)
        requires cell { seat.old.cell ≡ self.now }
        requires room { shares ≤ seat.old.pour_room }
        ensures { seat.new ≡ feeder_after_pour seat.old shares }
    {
        let shared = &self.words.shared;
        shared.fetch_add::<Pour>(&mut seat.token, POURED, shares);
        seat.poured += shares;
        seat.pour_room -= shares;
    }

    /// Seals the cell: no ticket is drawn from now on. A sealed cell stays as it is.
    pub fn seal(&self, seat: &mut FeederSeat)
        requires cell { seat.old.cell ≡ self.now }
        ensures { seat.new ≡ feeder_after_seal seat.old }
    {
        let shared = &self.words.shared;
        shared.fetch_or::<MakeSeal>(&mut seat.token, ASKED, SEAL);
        seat.sealed = true;
    }

    /// The shares that were poured: for the feeder the sum of its pours.
    pub fn look_poured<S: AnySeat>(&self, seat: &mut S) -> u64
        requires cell { S.of_cell seat.old ≡ self.now }
        ensures least { (S.seen_by seat.old).poured ≤ result }
        ensures shows { S.shows_poured seat.old result }
        ensures after { seat.new ≡ S.having_seen seat.old (record (S.seen_by seat.old) { poured = result }) }
    {
        seat.see_poured(self)
    }

    /// The shares that were asked, and the seal. Reserves that the sealed cell refused are counted too.
    pub fn look_asked<S: AnySeat>(&self, seat: &mut S) -> Asked
        requires cell { S.of_cell seat.old ≡ self.now }
        ensures least { (S.seen_by seat.old).asked ≤ result.sum }
        ensures sealed { (S.seen_by seat.old).sealed ≡ true → result.sealed ≡ true }
        ensures shows { S.shows_asked seat.old result }
        ensures after { seat.new ≡ S.having_seen seat.old
            (record (S.seen_by seat.old) { asked = result.sum; sealed = result.sealed }) }
    {
        seat.see_asked(self)
    }

    /// Splits off a seat without tickets, which has this part of the budget and of the calls and has
    /// seen what the seat has seen. It takes the memory for the tickets of these calls.
    pub fn split(
        &self,
        seat: &mut WorkerSeat,
        budget: u64,
        calls: u64,
    ) -> Result<WorkerSeat, AllocError>
        requires cell { seat.old.cell ≡ self.now }
        requires budget { budget ≤ seat.old.budget }
        requires calls { calls ≤ seat.old.calls }
        ensures rest { OnOk result (seat.new ≡ after_split seat.old budget calls) }
        ensures part { IfOk result (λ part. part ≡ split_off seat.old budget calls) }
        ensures ends { OnOk result (EndWithin seat.old.seen.asked seat.old.tickets) }
        ensures err { OnErr result (seat.new ≡ seat.old) }
    {
        let tickets = Vec::with_capacity(self.alloc, calls as usize)?;
        let token = part_off::<Brand>(&self.words, &mut seat.token, budget, calls);
        seat.budget -= budget;
        seat.calls -= calls;
        seat.room += calls;
        Ok(WorkerSeat {
            token,
            tickets,
            budget,
            calls,
            made: 0,
            given: seat.given,
            room: 0,
        })
    }

    /// Joins another seat into this one, which then has the tickets, the budget and the calls of both,
    /// and has seen what both have seen. It hands the other seat back where there is no memory, which
    /// it takes only where that seat's calls and tickets are more than this one's room.
    pub fn join(&self, seat: &mut WorkerSeat, other: WorkerSeat) -> Result<(), WorkerSeat>
        requires cell { seat.old.cell ≡ self.now }
        requires other_cell { other.cell ≡ self.now }
        ensures ok { OnOk result (Joins seat.old other seat.new) }
        ensures back { IfErr result (λ back. back ≡ other) }
        ensures same { OnErr result (seat.new ≡ seat.old) }
        ensures room { OnErr result (seat.old.room < room_taken other) }
    {
        let need = other.calls + other.tickets.len() as u64;
        let Ok(()) = make_room(&mut seat.tickets, seat.calls, seat.room, need) else {
            return Err(other);
        };
        let WorkerSeat {
            token,
            mut tickets,
            budget,
            calls,
            made,
            given: _,
            room: _,
        } = other;
        let shared = &self.words.shared;
        shared.join_seat::<Joining>(&mut seat.token, token);
        shared.load::<LookPoured>(&mut seat.token, POURED);
        let Ok(()) = seat.tickets.append(&mut tickets) else {
            unreachable!()
        };
        seat.budget += budget;
        seat.calls += calls;
        seat.made += made;
        seat.room = seat.room.saturating_sub(need);
        Ok(())
    }

    /// Ends the cell, with the feeder's seat and the seat into which all others with calls were joined.
    /// It gives this seat's tickets in their order. It takes no memory.
    ///
    /// No look has shown more poured shares than were poured, nor more asked shares of a cell that is
    /// not sealed than the tickets have.
    pub fn close(self, feeder: FeederSeat, worker: WorkerSeat) -> Closed
        requires feeder { feeder.cell ≡ self }
        requires worker { worker.cell ≡ self }
        requires back { calls_out worker ≡ 0 }
        ensures tickets { result.tickets ≡ worker.tickets }
        ensures ends { EndWithin worker.seen.asked worker.tickets }
        ensures tiles { Tiles (intervals_of result.tickets) }
        ensures drawn { AreDrawn result.tickets }
        ensures poured { result.poured ≡ feeder.poured }
        ensures seen { (both_seen feeder.seen worker.seen).poured ≤ result.poured }
        ensures seen_asked { result.sealed ≡ false → (both_seen feeder.seen worker.seen).asked ≤ asked_sum result.tickets }
        ensures sealed { result.sealed ≡ feeder.sealed }
        ensures seal_seen { worker.seen.sealed ≡ true → result.sealed ≡ true }
    {
        let PoolCell { words, alloc: _ } = self;
        let FeederSeat {
            token: feeding,
            poured,
            pour_room: _,
            sealed,
        } = feeder;
        let WorkerSeat {
            mut token,
            tickets,
            ..
        } = worker;
        words.shared.join_seat::<Closing>(&mut token, feeding);
        words.close_with(token).free();
        Closed {
            tickets: Tickets::from_vec(tickets),
            poured,
            sealed,
        }
    }

    // Tells the feeder what the worker has seen.
    pub(crate) fn tell_feeder(&self, worker: &mut WorkerSeat, feeder: &mut FeederSeat)
        requires worker { worker.old.cell ≡ self.now }
        requires feeder { feeder.old.cell ≡ self.now }
        ensures same { worker.new ≡ worker.old }
        ensures told { feeder.new ≡ feeder_seeing feeder.old (both_seen feeder.old.seen worker.old.seen) }
    {
        let shared = &self.words.shared;
        let note = shared.split_seat::<Telling>(&mut worker.token);
        shared.join_seat::<Telling>(&mut feeder.token, note);
    }

    // Tells the worker what the feeder has seen.
    pub(crate) fn tell_worker(&self, feeder: &mut FeederSeat, worker: &mut WorkerSeat)
        requires worker { worker.old.cell ≡ self.now }
        requires feeder { feeder.old.cell ≡ self.now }
        ensures same { feeder.new ≡ feeder.old }
        ensures told { worker.new ≡ worker_seeing worker.old (both_seen worker.old.seen feeder.old.seen) }
    {
        let shared = &self.words.shared;
        let note = shared.split_seat::<Telling>(&mut feeder.token);
        shared.join_seat::<Telling>(&mut worker.token, note);
    }
}

// Splits off a token that has this part of a worker's budget and calls.
fn part_off<P: Part>(words: &Words, token: &mut Token, budget: u64, calls: u64) -> Token
    requires table { token.old.table_id ≡ words.now.shared.table_id }
    requires words { 0 < words.now.shared.table_id.words }
    requires picks { (budget ≡ P.budget) × (calls ≡ P.calls) }
    requires works { token.old.me.0.works ≡ true }
    requires budget { budget ≤ token.old.me.0.budget }
    requires calls { calls ≤ token.old.me.0.calls }
    ensures table { (token.new.table_id ≡ token.old.table_id) × (result.table_id ≡ token.old.table_id) }
    ensures rest { token.new.me ≡ (view_after_split budget calls token.old.me.0, token.old.me.1) }
    ensures part { result.me ≡ (view_split_off budget calls token.old.me.0, []) }
{
    words.shared.split_seat::<Parting<P>>(token)
}

// Makes room for the tickets of the calls, and for `need` more. It takes memory only past `room`.
fn make_room(tickets: &mut Vec<Ticket>, calls: u64, room: u64, need: u64) -> Result<(), AllocError>
    requires counts { calls + need < 2 ^ 64 }
    requires fits { vec_len tickets.old + (calls + room) ≤ vec_capacity tickets.old }
    ensures same { tickets.new.items ≡ tickets.old.items }
    ensures len { vec_len tickets.new ≡ vec_len tickets.old }
    ensures more { vec_capacity tickets.old ≤ vec_capacity tickets.new }
    ensures ok { OnOk result (vec_len tickets.new + (calls + need) ≤ vec_capacity tickets.new) }
    ensures err { OnErr result (room < need) }
{
    if need <= room {
        return Ok(());
    }
    tickets.reserve((calls + need) as usize)
}
