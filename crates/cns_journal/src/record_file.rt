//! The records of a journal in the file of a disk.

ghost use Rattle.std.specs.Prelude.{◌≡◌, ◌⊎◌, ◌+◌, ◌≤◌, ◌<◌, true, [], ◌∷◌, ◌++◌, List, ℕ, length, map, vec_items, take, drop, slice_index_or, slice_get, OnOk, IfOk, IsErrOf};
ghost use Rattle.cns_journal.specs.declared.keeper.KeepFault.TheVariants.{Memory};
ghost use Rattle.cns_journal.specs.Disk.{CountsFailure, EachImage, LeavesOnly, Only, OnlyReads, Shortened, Torn, overwritten};
ghost use Rattle.cns_journal.specs.Layout.{HasWithOrWithout, IsSettled, closed_record, journal_of, payload_length, size_of};
ghost use Rattle.cns_journal.specs.Tail.{DoesNoDamage, IsUndamaged};
ghost use Rattle.cns_journal.specs.RecordFile.{CountsDevice, HasLess, IsNext};

use crate::disk::{Disk, DiskFault, MAX_FILE_LEN};
use crate::gate::{CLOSED, HEADER, OPEN};
use crate::keeper::{KeepFault, MAX_PAYLOAD};
use std::alloc::{AllocError, Global};

// Writes, and waits until it is on the disk.
fn write_through<D: Disk>(disk: &mut D, at: u64, bytes: &[u8]) -> Result<(), DiskFault>
    ensures honest { D.honest disk.new ≡ D.honest disk.old }
    ensures written { D.honest disk.old ≡ true → at ≤ length (D.seen disk.old)
        → OnOk result ((D.seen disk.new ≡ overwritten (D.seen disk.old) at bytes.now) × Only (D.seen disk.new) (D.images disk.new)) }
    ensures limit { OnOk result (at + length bytes.now ≤ MAX_FILE_LEN) }
    ensures any_moment { D.honest disk.old ≡ true → at ≤ length (D.seen disk.old) → Only (D.seen disk.old) (D.images disk.old)
        → LeavesOnly D.moment D.left_since disk.old disk.new (λ image. (image ≡ D.seen disk.old) ⊎ Torn at (length bytes.now) (D.seen disk.old) image) }
    ensures images { D.honest disk.old ≡ true → at ≤ length (D.seen disk.old) → Only (D.seen disk.old) (D.images disk.old)
        → EachImage (D.images disk.new) (λ image. (image ≡ D.seen disk.old) ⊎ Torn at (length bytes.now) (D.seen disk.old) image) }
    ensures failures { CountsFailure result (D.failures disk.old) (D.failures disk.new) }
{
    disk.write_at(at, bytes)?;
    disk.sync()
}

// Puts a record behind the closed gate at `end`, and then opens the gate.
pub fn append<D: Disk>(
    disk: &mut D,
    end: u64,
    payload: &[u8],
    behind_gate: &[u8],
) -> Result<(), DiskFault>
    requires record { behind_gate.now ≡ closed_record payload.now }
    requires size { (length payload.now ≤ MAX_PAYLOAD) × (end ≤ MAX_FILE_LEN) }
    requires settled { D.honest disk.old ≡ true → IsSettled (D.seen disk.old) (D.images disk.old) end }
    ensures honest { D.honest disk.new ≡ D.honest disk.old }
    ensures ok { D.honest disk.old ≡ true → OnOk result (IsSettled (D.seen disk.new) (D.images disk.new) (end + 5 + length payload.now)
        × (journal_of (D.seen disk.new) ≡ journal_of (D.seen disk.old) ++ payload.now ∷ [])) }
    ensures limit { OnOk result (end + 5 + length payload.now ≤ MAX_FILE_LEN) }
    ensures any_moment { D.honest disk.old ≡ true
        → LeavesOnly D.moment D.left_since disk.old disk.new (HasWithOrWithout (journal_of (D.seen disk.old)) payload.now) }
    ensures images { D.honest disk.old ≡ true
        → EachImage (D.images disk.new) (HasWithOrWithout (journal_of (D.seen disk.old)) payload.now) }
    ensures front { D.honest disk.old ≡ true → take end (D.seen disk.new) ≡ take end (D.seen disk.old) }
    ensures no_damage { D.honest disk.old ≡ true → IsUndamaged (D.seen disk.old)
        → DoesNoDamage D.images D.moment D.left_since disk.old disk.new }
    ensures failures { CountsFailure result (D.failures disk.old) (D.failures disk.new) }
{
    write_through(disk, end + 1, behind_gate)?;
    write_through(disk, end, &[OPEN])
}

// Puts these bytes in the place of those that a list has, and keeps its memory.
pub fn take_in(list: &mut Vec<u8>, bytes: &[u8]) -> Result<(), AllocError>
    ensures { OnOk result (vec_items list.new ≡ bytes.now) }
{
    list.clear();
    list.extend_from_slice(bytes)
}

// Puts in the place of what a list has the bytes of a record behind its gate, and the next gate, closed.
pub fn close_record(list: &mut Vec<u8>, payload: &[u8]) -> Result<(), AllocError>
    requires { length payload.now ≤ MAX_PAYLOAD }
    ensures { OnOk result (vec_items list.new ≡ closed_record payload.now) }
{
    take_in(list, &(payload.len() as u32).to_be_bytes())?;
    list.extend_from_slice(payload)?;
    list.push(CLOSED)?;
    Ok(())
}

// Cuts the file, and waits until that is on the disk.
fn cut_through<D: Disk>(disk: &mut D, len: u64) -> Result<(), DiskFault>
    ensures honest { D.honest disk.new ≡ D.honest disk.old }
    ensures cut { D.honest disk.old ≡ true → len ≤ length (D.seen disk.old)
        → OnOk result ((D.seen disk.new ≡ take len (D.seen disk.old)) × Only (D.seen disk.new) (D.images disk.new)) }
    ensures any_moment { D.honest disk.old ≡ true → len ≤ length (D.seen disk.old) → Only (D.seen disk.old) (D.images disk.old)
        → LeavesOnly D.moment D.left_since disk.old disk.new (Shortened len (D.seen disk.old)) }
    ensures images { D.honest disk.old ≡ true → len ≤ length (D.seen disk.old) → Only (D.seen disk.old) (D.images disk.old)
        → EachImage (D.images disk.new) (Shortened len (D.seen disk.old)) }
    ensures failures { CountsFailure result (D.failures disk.old) (D.failures disk.new) }
{
    disk.cut(len)?;
    disk.sync()
}

// Closes the gate at the end of the records, and takes away what stands behind an open one.
fn close<D: Disk>(disk: &mut D, end: u64, gate: Option<u8>) -> Result<(), DiskFault>
    requires size { end ≤ MAX_FILE_LEN }
    requires end { D.honest disk.old ≡ true → end ≡ size_of (journal_of (D.seen disk.old)) }
    requires gate { D.honest disk.old ≡ true → gate ≡ slice_get (D.seen disk.old) end }
    requires durable { D.honest disk.old ≡ true → Only (D.seen disk.old) (D.images disk.old) }
    ensures honest { D.honest disk.new ≡ D.honest disk.old }
    ensures ok { D.honest disk.old ≡ true → OnOk result (IsSettled (D.seen disk.new) (D.images disk.new) end) }
    ensures any_moment { D.honest disk.old ≡ true
        → LeavesOnly D.moment D.left_since disk.old disk.new (λ image. journal_of image ≡ journal_of (D.seen disk.old)) }
    ensures seen { D.honest disk.old ≡ true → (journal_of (D.seen disk.new) ≡ journal_of (D.seen disk.old))
        × (take end (D.seen disk.new) ≡ take end (D.seen disk.old)) }
    ensures no_damage { D.honest disk.old ≡ true → IsUndamaged (D.seen disk.old)
        → DoesNoDamage D.images D.moment D.left_since disk.old disk.new }
    ensures failures { CountsFailure result (D.failures disk.old) (D.failures disk.new) }
{
    match gate {
        Some(CLOSED) => Ok(()),
        Some(_) => {
            cut_through(disk, end + 1)?;
            write_through(disk, end, &[CLOSED])
        }
        None => write_through(disk, end, &[CLOSED]),
    }
}

// What stands next in the file: a record that counts, or the gate behind the last one, where there is a
// byte.
#[derive(Drop)]
enum Next {
    Record(Vec<u8>),
    End(Option<u8>),
}

// The first bytes of a record.
#[derive(Clone, Copy)]
struct Header {
    gate: u8,
    // The length of the payload, in bytes.
    size: u32,
}

fn read_header<D: Disk>(disk: &mut D, at: u64) -> Result<Header, DiskFault>
    ensures honest { D.honest disk.new ≡ D.honest disk.old }
    ensures value { D.honest disk.old ≡ true → at + 5 ≤ length (D.seen disk.old)
        → IfOk result (λ header. (header.gate ≡ slice_index_or (drop at (D.seen disk.old)) 0 0)
        × (header.size ≡ payload_length (drop at (D.seen disk.old)))) }
    ensures reads { D.honest disk.old ≡ true → OnlyReads D.seen D.images D.moment D.left_since disk.old disk.new }
    ensures failures { CountsFailure result (D.failures disk.old) (D.failures disk.new) }
{
    let mut header = [0; 5];
    disk.read(at, &mut header)?;
    let [gate, first, second, third, fourth] = header;
    Ok(Header {
        gate,
        size: u32::from_be_bytes([first, second, third, fourth]),
    })
}

// The byte at this place, where `left` bytes are left of the file.
fn read_gate<D: Disk>(disk: &mut D, at: u64, left: u64) -> Result<Option<u8>, DiskFault>
    ensures honest { D.honest disk.new ≡ D.honest disk.old }
    ensures value { D.honest disk.old ≡ true → at + left ≡ length (D.seen disk.old)
        → IfOk result (λ gate. gate ≡ slice_get (drop at (D.seen disk.old)) 0) }
    ensures reads { D.honest disk.old ≡ true → OnlyReads D.seen D.images D.moment D.left_since disk.old disk.new }
    ensures failures { CountsFailure result (D.failures disk.old) (D.failures disk.new) }
{
    if left == 0 {
        return Ok(None);
    }
    let mut gate = [0];
    disk.read(at, &mut gate)?;
    Ok(Some(gate[0]))
}

// The `count` bytes at this place.
fn read_bytes<D: Disk>(
    alloc: Global,
    disk: &mut D,
    at: u64,
    count: usize,
) -> Result<Vec<u8>, KeepFault>
    ensures honest { D.honest disk.new ≡ D.honest disk.old }
    ensures value { D.honest disk.old ≡ true → at + count ≤ length (D.seen disk.old)
        → IfOk result (λ bytes. vec_items bytes ≡ take count (drop at (D.seen disk.old))) }
    ensures count { IfOk result (λ bytes. length (vec_items bytes) ≡ count) }
    ensures reads { D.honest disk.old ≡ true → OnlyReads D.seen D.images D.moment D.left_since disk.old disk.new }
    ensures failures { CountsDevice result (D.failures disk.old) (D.failures disk.new) }
{
    let mut bytes = Vec::from_elem(alloc, 0, count)?;
    disk.read(at, bytes.as_mut_slice())?;
    Ok(bytes)
}

// Reads what stands next, where `left` bytes are left of the file.
fn read_next<D: Disk>(alloc: Global, disk: &mut D, at: u64, left: u64) -> Result<Next, KeepFault>
    requires size { at + left ≤ MAX_FILE_LEN }
    ensures honest { D.honest disk.new ≡ D.honest disk.old }
    ensures value { D.honest disk.old ≡ true → at + left ≡ length (D.seen disk.old)
        → IfOk result (IsNext (drop at (D.seen disk.old))) }
    ensures less { IfOk result (HasLess left) }
    ensures reads { D.honest disk.old ≡ true → OnlyReads D.seen D.images D.moment D.left_since disk.old disk.new }
    ensures failures { CountsDevice result (D.failures disk.old) (D.failures disk.new) }
{
    if left <= HEADER {
        return Ok(Next::End(read_gate(disk, at, left)?));
    }
    let header = read_header(disk, at)?;
    let size = header.size as usize;
    if header.gate != OPEN || size > MAX_PAYLOAD || left <= HEADER + size as u64 {
        return Ok(Next::End(Some(header.gate)));
    }
    Ok(Next::Record(read_bytes(alloc, disk, at + HEADER, size)?))
}

// The records of a file, where they end, and the gate there.
#[derive(Drop)]
pub struct Records {
    pub payloads: Vec<Vec<u8>>,
    pub end: u64,
    gate: Option<u8>,
}

// Reads all records, each byte of the file once.
fn read_records<D: Disk>(alloc: Global, disk: &mut D) -> Result<Records, KeepFault>
    ensures honest { D.honest disk.new ≡ D.honest disk.old }
    ensures value { D.honest disk.old ≡ true → IfOk result (λ records.
        (map vec_items (vec_items records.payloads) ≡ journal_of (D.seen disk.old))
        × (records.end ≡ size_of (journal_of (D.seen disk.old)))
        × (records.gate ≡ slice_get (D.seen disk.old) records.end)) }
    ensures size { IfOk result (λ records. (length (vec_items records.payloads) ≤ records.end) × (records.end ≤ MAX_FILE_LEN)) }
    ensures reads { D.honest disk.old ≡ true → OnlyReads D.seen D.images D.moment D.left_since disk.old disk.new }
    ensures failures { CountsDevice result (D.failures disk.old) (D.failures disk.new) }
{
    let len = disk.len()?;
    let mut payloads = Vec::new(alloc);
    let mut end = 0;
    'records: loop {
        match read_next(alloc, disk, end, len - end)? {
            Next::Record(payload) => {
                end += HEADER + payload.len() as u64;
                payloads.push(payload)?;
            }
            Next::End(gate) => {
                return Ok(Records {
                    payloads,
                    end,
                    gate,
                });
            }
        }
    }
}

// Reads the records of a file that a crash may have left, and closes the gate behind them.
pub fn reread<D: Disk>(alloc: Global, disk: &mut D) -> Result<Records, KeepFault>
    ensures honest { D.honest disk.new ≡ D.honest disk.old }
    ensures value { D.honest disk.old ≡ true → IfOk result (λ records.
        (map vec_items (vec_items records.payloads) ≡ journal_of (D.seen disk.old))
        × IsSettled (D.seen disk.new) (D.images disk.new) records.end) }
    ensures size { IfOk result (λ records. (length (vec_items records.payloads) ≤ records.end) × (records.end ≤ MAX_FILE_LEN)) }
    ensures any_moment { D.honest disk.old ≡ true → LeavesOnly D.moment D.left_since disk.old disk.new
        (λ image. D.images disk.old image ⊎ (journal_of image ≡ journal_of (D.seen disk.old))) }
    ensures seen { D.honest disk.old ≡ true → (journal_of (D.seen disk.new) ≡ journal_of (D.seen disk.old))
        × (take (size_of (journal_of (D.seen disk.old))) (D.seen disk.new) ≡ take (size_of (journal_of (D.seen disk.old))) (D.seen disk.old)) }
    ensures memory { D.honest disk.old ≡ true → IsErrOf result Memory
        → OnlyReads D.seen D.images D.moment D.left_since disk.old disk.new }
    ensures no_damage { D.honest disk.old ≡ true → EachImage (D.images disk.old) IsUndamaged
        → DoesNoDamage D.images D.moment D.left_since disk.old disk.new }
    ensures failures { CountsDevice result (D.failures disk.old) (D.failures disk.new) }
{
    disk.sync()?;
    let records = read_records(alloc, disk)?;
    close(disk, records.end, records.gate)?;
    Ok(records)
}
