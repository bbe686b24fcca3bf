//! A disk: what a read of its file gives, and what a crash may leave of it.

ghost use Rattle.std.specs.Prelude.{◌≡◌, ℕ, ◌+◌, ◌<◌, ◌≤◌, Bool, true, List, length, take, drop, OnOk, IfOk, IsErr};
ghost use Rattle.cns_journal.specs.Disk.{CountsFailure, DoesNothing, EachImage, Elapses, Follows, Only, Shortened, Torn, overwritten};

use thiserror::Error;

/// The end of the longest file, in bytes: a write that would end past it fails. (This project's own
/// limit.)
pub const MAX_FILE_LEN: u64 = 4_611_686_018_427_387_904;

/// The device of a disk failed.
#[derive(Clone, Copy, PartialEq, Eq, Debug, Error)]
#[error("the disk failed")]
pub struct DiskFault;

/// One file on a disk, which nobody else writes.
///
/// A crash at any moment leaves one of the file's images. Until a write is synced, the bytes that it
/// wrote and those past the old end may be any; a cut leaves the old length or the new one; what was
/// synced stays. A call that reaches past the end of the file, a write that would begin there among them,
/// fails and does nothing. What is said of bytes, images and moments holds where the disk is honest, and
/// each call leaves it as honest as it was. A call fails only where the count of the disk's failures
/// rises; at the largest count it stays there. (This project's own rules.)
pub trait Disk {
    /// Whether what is said of bytes, images and moments holds.
    ghost honest: { Self → Bool };

    /// The bytes that a read gives.
    ghost seen: { Self → List ℕ };

    /// The files that a crash at this moment may leave.
    ghost images: { Self → List ℕ → Type 0 };

    /// A number that never falls.
    ghost moment: { Self → ℕ };

    /// The files that a crash may have left at some moment from that one on, within a call or between
    /// two.
    ghost left_since: { Self → ℕ → List ℕ → Type 0 };

    /// How often the disk has failed.
    ghost failures: { Self → ℕ };

    /// How many bytes the file has.
    fn len(&mut self) -> Result<u64, DiskFault>
        ensures honest { honest self.new ≡ honest self.old }
        ensures value { honest self.old ≡ true → IfOk result (λ bytes. bytes ≡ length (seen self.old)) }
        ensures limit { IfOk result (λ bytes. bytes ≤ MAX_FILE_LEN) }
        ensures seen { honest self.old ≡ true → seen self.new ≡ seen self.old }
        ensures crash { honest self.old ≡ true → EachImage (images self.new) (images self.old) }
        ensures time { honest self.old ≡ true → Elapses (moment self.old) (moment self.new) (left_since self.old) (left_since self.new) (images self.new) }
        ensures failures { CountsFailure result (failures self.old) (failures self.new) };

    /// Reads the bytes from `at` on into the whole of `into`.
    fn read(&mut self, at: u64, into: &mut [u8]) -> Result<(), DiskFault>
        ensures honest { honest self.new ≡ honest self.old }
        ensures value { honest self.old ≡ true → at + length into.old ≤ length (seen self.old)
            → OnOk result (into.new ≡ take (length into.old) (drop at (seen self.old))) }
        ensures outside { honest self.old ≡ true → length (seen self.old) < at + length into.old → IsErr result }
        ensures seen { honest self.old ≡ true → seen self.new ≡ seen self.old }
        ensures crash { honest self.old ≡ true → EachImage (images self.new) (images self.old) }
        ensures time { honest self.old ≡ true → Elapses (moment self.old) (moment self.new) (left_since self.old) (left_since self.new) (images self.new) }
        ensures failures { CountsFailure result (failures self.old) (failures self.new) };

    /// Writes the bytes at `at`, over what is there and past the end.
    fn write_at(&mut self, at: u64, bytes: &[u8]) -> Result<(), DiskFault>
        ensures honest { honest self.new ≡ honest self.old }
        ensures written { honest self.old ≡ true → at ≤ length (seen self.old)
            → OnOk result (seen self.new ≡ overwritten (seen self.old) at bytes.now) }
        ensures outside { honest self.old ≡ true → length (seen self.old) < at → DoesNothing seen images result self.old self.new }
        ensures limit { OnOk result (at + length bytes.now ≤ MAX_FILE_LEN) }
        ensures crash { honest self.old ≡ true → at ≤ length (seen self.old)
            → Follows (Torn at (length bytes.now)) (images self.old) (images self.new) }
        ensures time { honest self.old ≡ true → Elapses (moment self.old) (moment self.new) (left_since self.old) (left_since self.new) (images self.new) }
        ensures failures { CountsFailure result (failures self.old) (failures self.new) };

    /// Cuts the file to its first `len` bytes.
    fn cut(&mut self, len: u64) -> Result<(), DiskFault>
        ensures honest { honest self.new ≡ honest self.old }
        ensures cut { honest self.old ≡ true → len ≤ length (seen self.old)
            → OnOk result (seen self.new ≡ take len (seen self.old)) }
        ensures outside { honest self.old ≡ true → length (seen self.old) < len → DoesNothing seen images result self.old self.new }
        ensures crash { honest self.old ≡ true → len ≤ length (seen self.old)
            → Follows (Shortened len) (images self.old) (images self.new) }
        ensures time { honest self.old ≡ true → Elapses (moment self.old) (moment self.new) (left_since self.old) (left_since self.new) (images self.new) }
        ensures failures { CountsFailure result (failures self.old) (failures self.new) };

    /// Waits until all of the file is on the disk: a crash then leaves what a read gives.
    fn sync(&mut self) -> Result<(), DiskFault>
        ensures honest { honest self.new ≡ honest self.old }
        ensures durable { honest self.old ≡ true → OnOk result (Only (seen self.new) (images self.new)) }
        ensures seen { honest self.old ≡ true → seen self.new ≡ seen self.old }
        ensures crash { honest self.old ≡ true → EachImage (images self.new) (images self.old) }
        ensures time { honest self.old ≡ true → Elapses (moment self.old) (moment self.new) (left_since self.old) (left_since self.new) (images self.new) }
        ensures failures { CountsFailure result (failures self.old) (failures self.new) };

    /// This moment is one of those since an earlier one.
    ghost counts_now: { (disk : Self) (t : ℕ) (image : List ℕ) → honest disk ≡ true → t ≤ moment disk → images disk image → left_since disk t image };

    /// Since this moment there has been no other.
    ghost only_now: { (disk : Self) (image : List ℕ) → honest disk ≡ true → left_since disk (moment disk) image → images disk image };

    /// The file as it reads is one of its images.
    ghost reads_an_image: { (disk : Self) → honest disk ≡ true → images disk (seen disk) };
}
