ghost use Rattle.std.specs.Prelude.{◌≡◌, ◌++◌, ◌+◌, ◌-◌, ◌<◌, ◌≤◌, ℕ, nat_eq, [], ◌∷◌, None, reverse, length, count_by, filter, ◌+ℤ◌, IfOk, OnOk, OnErr, IsOk, vec_capacity, if◌then◌else◌};
ghost use Rattle.std.specs.BinaryHeap.{heap_capacity, heap_items, heap_len, IsHeap};
ghost use Rattle.std.specs.HashMap.{get, spare};
ghost use Rattle.std.specs.List.Sorted.{IsPermutation};
ghost use Rattle.cns_trades.specs.Verdicts.{known};
ghost use Rattle.cns_netting.specs.Book.{IsBook, IsWithin, room_of};
ghost use Rattle.cns_netting.specs.History.{accepted, becoming_due, credit_part, debit_part, position_of, longs_of, shorts_of};
ghost use Rattle.cns_netting.specs.Rows.{is_row_in, rows_of};
ghost use Rattle.cns_netting.specs.Undue.{earlier};
ghost use Rattle.cns_netting.specs.declared.entry.NetEntry.TheVariants.{Accepted, Netted, Settled};

use crate::count::RowTest;
use crate::due::{has_due, make_due, waiting_of};
use crate::entry::NetEntry;
use crate::position::PositionRow;
use crate::positions::Positions;
use crate::totals::{Totals, enter_counted, name_issue, totals_of};
use crate::undue::{Change, Undue};
use cns_ids::{Cusip, Day, MemberNo};
use cns_trades::Trade;
use std::alloc::{AllocError, Global};
use std::collections::{BinaryHeap, HashMap};
use std::marker::Model;

/// Accepted trades, due or not, with the nettings and settlements since.
///
/// Contracts see the history of entries, the newest first, and for how many more there is room. Beside
/// the history the book keeps the position of each holding, the totals of each issue's positions, and
/// what netting needs of the trades that are not due, the earliest settlement first.
#[derive(Drop)]
pub struct NetBook {
    entries: Vec<NetEntry>,
    positions: Positions,
    totals: HashMap<Cusip, Totals>,
    undue: BinaryHeap<Undue>,
}

impl Model for NetBook {
    ghost use Rattle.std.specs.Prelude.{◌-◌, length, reverse, vec_capacity};
    ghost use Rattle.std.specs.BinaryHeap.{heap_capacity, heap_items, heap_len};
    ghost use Rattle.std.specs.HashMap.{spare};
    ghost use Rattle.cns_netting.specs.Book.{IsKeptBook, NetRoom, room_of};

    ghost Value = { NetRoom };

    ghost view = { λ b. record {
      history = reverse b.entries.items;
      room = room_of (vec_capacity b.entries - length b.entries.items) b.positions.room (spare b.totals) (heap_capacity b.undue - heap_len b.undue);
    } };

    ghost invariant = { λ b. IsKeptBook (reverse b.entries.items) b.positions.entries b.totals (heap_items b.undue) };
}

// Takes the memory that any entry needs.
fn reserve(
    entries: &mut Vec<NetEntry>,
    positions: &mut Positions,
    totals: &mut HashMap<Cusip, Totals>,
    undue: &mut BinaryHeap<Undue>,
) -> Result<(), AllocError>
    ensures entries { entries.new.items ≡ entries.old.items }
    ensures positions { positions.new.entries ≡ positions.old.entries }
    ensures totals { (i : ℕ) → get nat_eq totals.new i ≡ get nat_eq totals.old i }
    ensures undue { heap_items undue.new ≡ heap_items undue.old }
    ensures entry_room { OnOk result (length entries.new.items < vec_capacity entries.new) }
    ensures holding_room { OnOk result (2 ≤ positions.new.room) }
    ensures issue_room { OnOk result (1 ≤ spare totals.new) }
    ensures undue_room { OnOk result (heap_len undue.new < heap_capacity undue.new) }
    ensures none { OnErr result (room_of (vec_capacity entries.old - length entries.old.items) positions.old.room (spare totals.old) (heap_capacity undue.old - heap_len undue.old) ≡ 0) }
    ensures left { room_of (vec_capacity entries.old - length entries.old.items) positions.old.room (spare totals.old) (heap_capacity undue.old - heap_len undue.old) ≤ room_of (vec_capacity entries.new - length entries.new.items) positions.new.room (spare totals.new) (heap_capacity undue.new - heap_len undue.new) }
{
    entries.reserve(1)?;
    positions.reserve()?;
    totals.reserve(1)?;
    undue.reserve(1)
}

// Enters a trade that is not due, for which there is room.
fn enter(undue: &mut BinaryHeap<Undue>, trade: Undue)
    requires room { heap_len undue.old < heap_capacity undue.old }
    requires heap { IsHeap earlier (heap_items undue.old) }
    ensures entered { IsPermutation (trade ∷ heap_items undue.old) (heap_items undue.new) }
    ensures heap { IsHeap earlier (heap_items undue.new) }
{
    let Ok(()) = undue.push(trade) else {
        unreachable!()
    };
}

// Writes an entry, for which there is room.
fn write(entries: &mut Vec<NetEntry>, entry: NetEntry)
    requires { length entries.old.items < vec_capacity entries.old }
    ensures { entries.new.items ≡ entries.old.items ++ entry ∷ [] }
{
    let Ok(()) = entries.push(entry) else {
        unreachable!()
    };
}

// Gives back memory where more than half of what was taken is not used, as after many trades became due.
fn free_unused(undue: &mut BinaryHeap<Undue>)
    ensures { heap_items undue.new ≡ heap_items undue.old }
{
    undue.shrink_to(undue.len().saturating_mul(2));
}

// A settled amount as an entry holds it.
fn held(amount: i128) -> i64
    requires { (credit_part amount ≤ 2000000000000000000) × (debit_part amount ≤ 2000000000000000000) }
    ensures { result ≡ amount }
{
    amount as i64
}

// The shares that a settlement brought.
fn brought(amount: i64) -> u64
    ensures { result ≡ credit_part amount }
{
    if amount > 0 { amount.unsigned_abs() } else { 0 }
}

// The shares that a settlement took.
fn taken(amount: i64) -> u64
    ensures { result ≡ debit_part amount }
{
    if amount < 0 { amount.unsigned_abs() } else { 0 }
}

impl NetBook {
    /// An empty book, with room for no entry.
    pub fn new(alloc: Global) -> NetBook
        ensures history { result.history ≡ [] }
        ensures room { result.room ≡ 0 }
    {
        NetBook {
            entries: Vec::new(alloc),
            positions: Positions::new(alloc),
            totals: HashMap::new(alloc),
            undue: BinaryHeap::new(alloc),
        }
    }

    // Takes the memory that any entry needs.
    #[inline(always)]
    fn make_room(&mut self) -> Result<(), AllocError>
        ensures same { self.new.history ≡ self.old.history }
        ensures room { OnOk result (0 < self.new.room) }
        ensures err { OnErr result (self.old.room ≡ 0) }
        ensures left { self.old.room ≤ self.new.room }
        ensures lawful { IsBook self.new.history }
    {
        reserve(
            &mut self.entries,
            &mut self.positions,
            &mut self.totals,
            &mut self.undue,
        )
    }

    /// Takes the memory that `accept` of a trade needs: as the next change, it then succeeds.
    pub fn accept_room(&mut self, _trade: Trade) -> Result<(), AllocError>
        ensures same { self.new.history ≡ self.old.history }
        ensures room { OnOk result (0 < self.new.room) }
        ensures err { OnErr result (self.old.room ≡ 0) }
        ensures left { self.old.room ≤ self.new.room }
    {
        self.make_room()
    }

    /// Takes in an accepted trade. Its id is new, and fewer than a million trades are held.
    pub fn accept(&mut self, trade: Trade) -> Result<(), AllocError>
        requires new { known trade.id (accepted self.old.history) ≡ None }
        requires few { length (accepted self.old.history) < 1000000 }
        ensures ok { OnOk result (self.new.history ≡ Accepted trade ∷ self.old.history) }
        ensures err { OnErr result (self.new.history ≡ self.old.history) }
        ensures room { 0 < self.old.room → IsOk result }
    {
        self.make_room()?;
        self.accept_reserved(&trade);
        Ok(())
    }

    /// `accept` of a trade, for which there is room. It takes no memory.
    pub fn accept_reserved(&mut self, trade: &Trade)
        requires room { 0 < self.old.room }
        requires new { known trade.now.id (accepted self.old.history) ≡ None }
        requires few { length (accepted self.old.history) < 1000000 }
        ensures { self.new.history ≡ Accepted trade.now ∷ self.old.history }
    {
        let _quantity = trade.quantity.shares();
        let waiting = waiting_of(trade);
        self.positions.name_trade(&waiting);
        name_issue(&mut self.totals, trade.issue);
        enter(&mut self.undue, waiting);
        write(&mut self.entries, NetEntry::Accepted(*trade));
    }

    /// Takes the memory that `net` of a date needs: as the next change, it then succeeds.
    pub fn net_room(&mut self, _day: Day) -> Result<(), AllocError>
        ensures same { self.new.history ≡ self.old.history }
        ensures room { OnOk result (0 < self.new.room) }
        ensures err { OnErr result (self.old.room ≡ 0) }
        ensures left { self.old.room ≤ self.new.room }
        ensures lawful { IsBook self.new.history }
    {
        self.make_room()
    }

    /// Makes the trades due that settle by a date, and answers how many became so.
    pub fn net(&mut self, day: Day) -> Result<u64, AllocError>
        ensures count { IfOk result (λ count. count ≡ becoming_due self.old.history day) }
        ensures ok { OnOk result (self.new.history ≡ Netted day ∷ self.old.history) }
        ensures err { OnErr result (self.new.history ≡ self.old.history) }
        ensures room { 0 < self.old.room → IsOk result }
    {
        self.make_room()?;
        let becoming = make_due(&mut self.undue, &mut self.positions, &mut self.totals, day);
        free_unused(&mut self.undue);
        write(&mut self.entries, NetEntry::Netted(day));
        Ok(becoming as u64)
    }

    /// Takes the memory that `settle` needs: as the next change, it then succeeds.
    pub fn settle_room(
        &mut self,
        _member: MemberNo,
        _issue: Cusip,
        _amount: i128,
    ) -> Result<(), AllocError>
        ensures same { self.new.history ≡ self.old.history }
        ensures room { OnOk result (0 < self.new.room) }
        ensures err { OnErr result (self.old.room ≡ 0) }
        ensures left { self.old.room ≤ self.new.room }
        ensures lawful { IsBook self.new.history }
    {
        self.make_room()
    }

    /// Adds the shares of a confirmed movement to a position, or takes them from it where negative.
    /// The position stays within 10^18 shares of 0.
    pub fn settle(&mut self, member: MemberNo, issue: Cusip, amount: i128) -> Result<(), AllocError>
        requires before { IsWithin (position_of self.old.history member issue) }
        requires after { IsWithin (position_of self.old.history member issue +ℤ amount) }
        ensures ok { OnOk result (self.new.history ≡ Settled member issue amount ∷ self.old.history) }
        ensures err { OnErr result (self.new.history ≡ self.old.history) }
        ensures room { 0 < self.old.room → IsOk result }
    {
        self.make_room()?;
        self.settle_reserved(member, issue, amount);
        Ok(())
    }

    /// `settle` of a confirmed movement, for which there is room. It takes no memory.
    pub fn settle_reserved(&mut self, member: MemberNo, issue: Cusip, amount: i128)
        requires room { 0 < self.old.room }
        requires before { IsWithin (position_of self.old.history member issue) }
        requires after { IsWithin (position_of self.old.history member issue +ℤ amount) }
        ensures { self.new.history ≡ Settled member issue amount ∷ self.old.history }
    {
        let amount = held(amount);
        enter_counted(
            &mut self.positions,
            &mut self.totals,
            member,
            issue,
            brought(amount),
            taken(amount),
        );
        let entry = NetEntry::Settled {
            member,
            issue,
            amount,
        };
        write(&mut self.entries, entry);
    }

    /// Puts the holdings into order, so that rows are listed without a sort until new holdings are named.
    /// Where there is no memory for it they stay as they are.
    ///
    /// Costs a sort of the holdings that were named since the last time and a pass over all, and nothing where
    /// none was.
    pub fn put_in_order(&mut self)
        ensures same { self.new.history ≡ self.old.history }
        ensures left { self.old.room ≤ self.new.room }
    {
        self.positions.put_in_order();
    }

    /// The position of a member in an issue: bought less sold over the due trades, and settlements.
    pub fn position(&self, member: MemberNo, issue: Cusip) -> i128
        ensures value { result ≡ position_of self.now.history member issue }
        ensures lawful { IsBook self.now.history }
    {
        i128::from(self.positions.position(member, issue).shares)
    }

    /// The positions other than 0, by issue, then member.
    ///
    /// Costs one pass over all holdings, and a sort of the rows where some holdings stand in no order.
    pub fn rows(&self) -> Result<Vec<PositionRow>, AllocError>
        ensures { IfOk result (λ rows. rows.items ≡ rows_of self.now.history) }
    {
        self.positions.rows(*self.entries.allocator())
    }

    /// The positions other than 0 in an issue, by member.
    ///
    /// Costs two searches by halves, the holdings of the issue, and one pass over the holdings that were
    /// named since the last `put_in_order`; or where these are more than members, a look-up of each member.
    pub fn rows_in(&self, issue: Cusip) -> Result<Vec<PositionRow>, AllocError>
        ensures { IfOk result (λ rows. rows.items ≡ filter (is_row_in issue) (rows_of self.now.history)) }
    {
        self.positions.rows_in(*self.entries.allocator(), issue)
    }

    /// The positions other than 0 that `net` of a date would leave, by issue, then member.
    pub fn rows_at(&self, day: Day) -> Result<Vec<PositionRow>, AllocError>
        ensures { IfOk result (λ rows. rows.items ≡ rows_of (Netted day ∷ self.now.history)) }
    {
        if !has_due(&self.undue, day) {
            return self.rows();
        }
        let mut after = self.positions.copy()?;
        after.add_due(self.undue.as_slice(), day, Change::Add);
        after.rows_by(*self.entries.allocator(), &self.positions)
    }

    /// The positions other than 0 that `net` of a date would leave, by issue, then member, as `rows_at`
    /// lists them. It copies no position, and leaves the book as it was.
    ///
    /// Costs what `rows` does, and where some trade would become due, two passes over the trades that are
    /// not due, with look-ups for those that would.
    pub fn rows_after(&mut self, day: Day) -> Result<Vec<PositionRow>, AllocError>
        ensures rows { IfOk result (λ rows. rows.items ≡ rows_of (Netted day ∷ self.old.history)) }
        ensures same { self.new ≡ self.old }
    {
        if !has_due(&self.undue, day) {
            return self.rows();
        }
        let undue = self.undue.as_slice();
        self.positions.add_due(undue, day, Change::Add);
        let rows = self.positions.rows(*self.entries.allocator());
        self.positions.add_due(undue, day, Change::TakeBack);
        rows
    }

    /// How many of the positions other than 0 that `net` of a date would leave pass a test. It takes no
    /// memory, and leaves the book as it was.
    ///
    /// Costs one pass over the trades that are not due and one over all holdings, with look-ups for the
    /// trades that would become due, and the test of each position.
    pub fn count_at<T: RowTest>(&mut self, day: Day, test: &T) -> usize
        ensures count { result ≡ count_by (T.passing test.now) (rows_of (Netted day ∷ self.old.history)) }
        ensures same { self.new ≡ self.old }
    {
        let undue = self.undue.as_slice();
        self.positions.add_due(undue, day, Change::Add);
        let count = self.positions.count_rows(test);
        self.positions.add_due(undue, day, Change::TakeBack);
        count
    }

    /// The shares of all positions above 0 in an issue. Costs a look-up.
    pub fn longs(&self, issue: Cusip) -> u128
        ensures { result ≡ longs_of self.now.history issue }
    {
        totals_of(&self.totals, issue).longs
    }

    /// The shares of all positions below 0 in an issue, as a size. Costs a look-up.
    pub fn shorts(&self, issue: Cusip) -> u128
        ensures { result ≡ shorts_of self.now.history issue }
    {
        totals_of(&self.totals, issue).shorts
    }
}
