//! An open file, whose calls tell what they did.

ghost use Rattle.std.specs.Prelude.{◌≡◌, ◌≤◌, ◌+◌, Option, length, take, None, IfSome, IfOk, IfErr};
ghost use Rattle.std.specs.IoError.{error_kind};
ghost use Rattle.std.specs.declared.io.ErrorKind.TheVariants.{Interrupted};
ghost use Rattle.nsi_disk.specs.Disk.{Fresh, Wrote, CutTo, Synced, Broke, MayLeave, seen, was_cut};
ghost use Rattle.file_shelf.specs.Outcomes.{call_outcome};
ghost use Rattle.file_shelf.specs.Told.{Told, Goes, Syncs, PutsSome, ReadsOn, Reaches};

use std::io;

/// An open file. Places and lengths are in bytes. A call that is interrupted has done nothing.
pub trait DiskFile {
    /// What is known of it, where it tells. A file that tells goes on telling, and no other begins to.
    ghost told: { Self → Option Told };

    /// How many bytes there are.
    fn length(&mut self) -> io::Result<u64>
        ensures length { IfSome (told self.old) (λ t. IfOk result (λ n. n ≡ length (seen t.past))) }
        ensures goes { Goes Broke (λ h. h) (told self.old) (told self.new) (call_outcome result) };

    /// Reads bytes into the buffer behind its first `done`, and says how many. The buffer's first is for the byte at this
    /// place.
    fn read(&mut self, place: u64, buffer: &mut [u8], done: usize) -> io::Result<usize>
        requires within { done ≤ length buffer.old }
        requires reach { Reaches (place + length buffer.old) (told self.old) }
        ensures within { IfOk result (λ n. done + n ≤ length buffer.old) }
        ensures front { take done buffer.new ≡ take done buffer.old }
        ensures bytes { IfSome (told self.old) (λ t.
            IfOk result (λ n. ReadsOn place done n (seen t.past) buffer.old buffer.new)) }
        ensures goes { Goes Broke (λ h. h) (told self.old) (told self.new) (call_outcome result) }
        ensures interrupted { IfErr result (λ e.
            error_kind e ≡ Interrupted → told self.new ≡ told self.old) };

    /// Writes bytes of the piece behind its first `done`, and says how many. The piece's first goes to this place.
    fn write(&mut self, place: u64, piece: &[u8], done: usize) -> io::Result<usize>
        requires within { done ≤ length piece.now }
        requires reach { Reaches place (told self.old) }
        ensures within { IfOk result (λ n. done + n ≤ length piece.now) }
        ensures puts { PutsSome place piece.now done (told self.old) (told self.new) result }
        ensures untold { told self.old ≡ None → told self.new ≡ None }
        ensures interrupted { IfErr result (λ e.
            error_kind e ≡ Interrupted → told self.new ≡ told self.old) };

    /// Keeps the first `len` bytes.
    fn cut(&mut self, len: u64) -> io::Result<()>
        requires { Reaches len (told self.old) }
        ensures goes { Goes (CutTo len) (λ h. was_cut len h)
            (told self.old) (told self.new) (call_outcome result) };

    /// After this a crash leaves what a read gives.
    fn sync(&mut self) -> io::Result<()>
        ensures syncs { Syncs Synced (told self.old) (told self.new) (call_outcome result) };

    /// The same, and what it goes through is told from here on.
    fn settle(&mut self) -> io::Result<()>
        ensures syncs { Syncs (λ h. Fresh (seen h))
            (told self.old) (told self.new) (call_outcome result) };

    /// What it reads is one of the things that a crash may leave.
    ghost reads_image: { (f : Self) → IfSome (told f) (λ t. MayLeave t.past (seen t.past)) };
}
