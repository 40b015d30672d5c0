//! A file, and what a crash may leave of it.

ghost use Rattle.std.specs.Prelude.{◌≡◌, ◌≤◌, ◌+◌, Option, length, take, drop, IfSome, IfOk, OnOk, OnErr};
ghost use Rattle.nsi_disk.specs.declared.disk.DiskError.TheVariants.{NoMemory as NoRoom};
ghost use Rattle.nsi_disk.specs.Disk.{History, Meter, MayLeave, Wrote, CutTo, Synced, Broke, seen, wrote, was_cut, cut_away, Steps, HasCause, KeepsRoomOf, with_room};

use std::alloc::AllocError;

/// Why a call was not made, or not made to its end. What the disk reads then is one of its images.
#[derive(Clone, Copy, Debug, PartialEq, Eq)]
pub enum DiskError {
    /// The call failed. The disk may be used further.
    Failed,
    /// The disk has stopped: at this call, or before it. It answers nothing else from then on.
    Stopped,
    NoMemory,
}

/// A file that reads back what was written, and keeps it through a crash once it is synced. Places and lengths are
/// in bytes.
///
/// Between two syncs a crash may leave any bytes in each written range and past the old end, and any length between the
/// least and the greatest; the other bytes stay.
pub trait Disk {
    /// What it has been through, where it tells. A disk that tells goes on telling, and no other begins to.
    ghost history: { Self → Option History };

    /// Its counts and its room.
    ghost meter: { Self → Meter };

    /// How many bytes there are.
    fn length(&mut self) -> Result<u64, DiskError>
        ensures length { IfSome (history self.old) (λ h. IfOk result (λ n. n ≡ length (seen h))) }
        ensures steps { Steps Broke (λ h. h) (history self.old) (history self.new) result }
        ensures cause { HasCause (meter self.old) (meter self.new) result }
        ensures room { KeepsRoomOf (history self.old) 0 0
            (meter self.old) (meter self.new) result };

    /// Fills the buffer with the bytes from this place on.
    fn read_at(&mut self, place: u64, buffer: &mut [u8]) -> Result<(), DiskError>
        requires { IfSome (history self.old) (λ h. place + length buffer.old ≤ length (seen h)) }
        ensures read { IfSome (history self.old) (λ h.
            OnOk result (buffer.new ≡ take (length buffer.old) (drop place (seen h)))) }
        ensures steps { Steps Broke (λ h. h) (history self.old) (history self.new) result }
        ensures cause { HasCause (meter self.old) (meter self.new) result }
        ensures room { KeepsRoomOf (history self.old) (place + length buffer.old) 0
            (meter self.old) (meter self.new) result };

    /// Writes over what is there, and past the end.
    fn write_at(&mut self, place: u64, piece: &[u8]) -> Result<(), DiskError>
        requires { IfSome (history self.old) (λ h. place ≤ length (seen h)) }
        ensures steps { Steps (Wrote place (length piece.now)) (λ h. wrote place piece.now h)
            (history self.old) (history self.new) result }
        ensures cause { HasCause (meter self.old) (meter self.new) result }
        ensures room { KeepsRoomOf (history self.old) (place + length piece.now) (length piece.now)
            (meter self.old) (meter self.new) result };

    /// Keeps the first `len` bytes.
    fn cut(&mut self, len: u64) -> Result<(), DiskError>
        requires { IfSome (history self.old) (λ h. len ≤ length (seen h)) }
        ensures steps { Steps (CutTo len) (λ h. was_cut len h)
            (history self.old) (history self.new) result }
        ensures cause { HasCause (meter self.old) (meter self.new) result }
        ensures room { KeepsRoomOf (history self.old) len (cut_away (history self.old) len)
            (meter self.old) (meter self.new) result };

    /// After this a crash leaves what a read gives.
    fn sync(&mut self) -> Result<(), DiskError>
        ensures steps { Steps Broke Synced (history self.old) (history self.new) result }
        ensures cause { HasCause (meter self.old) (meter self.new) result }
        ensures room { KeepsRoomOf (history self.old) 0 0
            (meter self.old) (meter self.new) result };

    /// Takes the memory of so many further calls on a disk of at most the length `longest`, which write and cut away at
    /// most so many bytes. It is no call of the file: it isn't counted, and a stopped disk makes room too.
    fn make_room(&mut self, calls: u64, longest: u64, bytes: u64) -> Result<(), AllocError>
        ensures ok { OnOk result (meter self.new
            ≡ with_room calls longest bytes (meter self.old)) }
        ensures err { OnErr result (meter self.new ≡ meter self.old) }
        ensures same { history self.new ≡ history self.old };

    /// What it reads is one of its images.
    ghost reads_image: { (d : Self) → IfSome (history d) (λ h. MayLeave h (seen h)) };

    /// It stops no more often than was planned.
    ghost few_stops: { (d : Self) → (meter d).stops ≤ (meter d).planned };
}

impl From<AllocError> for DiskError {
    ghost from_gives = { λ _ e. e ≡ NoRoom };

    fn from(_: AllocError) -> Self {
        DiskError::NoMemory
    }
}
