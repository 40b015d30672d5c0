//! What a disk in memory reads, with its past calls and the bytes that they overwrote.

ghost use Rattle.std.specs.Prelude.{◌≡◌, ◌≤◌, ◌<◌, ◌+◌, ◌-◌, ℕ, length, take, OnOk, OnErr, vec_len, vec_capacity};
ghost use Rattle.nsi_disk.specs.Disk.{Wrote, CutTo, Synced, Broke, written};
ghost use Rattle.nsi_disk.specs.Memory.{told_by, reads, SameContent, HasSpace, LeavesContent, is_sync};

use std::alloc::AllocError;

/// A past call. `over` is how many bytes it overwrote or cut away: the last ones that were saved, when it is the newest.
#[derive(Clone, Copy, Debug)]
pub enum Past {
    Write { place: u64, count: u64, over: u64 },
    Cut { count: u64, over: u64 },
    Sync,
    /// A call that changed no byte and stopped the disk.
    Pause,
}

impl Past {
    pub fn is_sync(self) -> bool
        ensures { result ≡ (is_sync self) }
    {
        match self {
            Past::Sync => true,
            Past::Write { .. } | Past::Cut { .. } | Past::Pause => false,
        }
    }
}

/// The bytes as they are, the calls so far, and what they overwrote: so the past is told without a copy of it, and a call
/// costs its own bytes.
#[derive(Drop)]
pub struct Content {
    pub bytes: Vec<u8>,
    pub log: Vec<Past>,
    pub saved: Vec<u8>,
}

/// Writes over what is there, and past the end.
pub fn overwrite(bytes: &mut Vec<u8>, place: usize, piece: &[u8]) -> Result<(), AllocError>
    requires { place ≤ vec_len bytes.old }
    ensures ok { OnOk result (bytes.new.items ≡ written place piece.now bytes.old.items) }
    ensures err { OnErr result (bytes.new.items ≡ bytes.old.items) }
    ensures full { OnErr result (vec_capacity bytes.old < place + length piece.now) }
    ensures capacity { vec_capacity bytes.old ≤ vec_capacity bytes.new }
{
    let inside = piece.len().min(bytes.len() - place);
    let (front, behind) = piece.split_at(inside);
    bytes.extend_from_slice(behind)?;
    bytes[place..place + inside].copy_from_slice(front);
    Ok(())
}

impl Content {
    pub fn into_bytes(self) -> Vec<u8>
        ensures { result.items ≡ reads self }
    {
        let Content {
            bytes,
            log: _,
            saved: _,
        } = self;
        bytes
    }

    pub fn write(&mut self, place: u64, piece: &[u8]) -> Result<(), AllocError>
        requires { place ≤ length (reads self.old) }
        ensures done { OnOk result (told_by self.new
            ≡ Wrote place (length piece.now) (written place piece.now (reads self.old))
            (told_by self.old)) }
        ensures leaves { LeavesContent (written place piece.now (reads self.old))
            (place + length piece.now) (length piece.now) self.old self.new result }
    {
        let at = place as usize;
        let inside = piece.len().min(self.bytes.len() - at);
        self.log.reserve(1)?;
        self.saved.reserve(inside)?;
        self.bytes.reserve(piece.len() - inside)?;
        let (_, behind) = self.bytes.split_at(at);
        let (over, _) = behind.split_at(inside);
        self.saved.extend_from_slice(over)?;
        self.log.push_reserved(Past::Write {
            place,
            count: piece.len() as u64,
            over: inside as u64,
        });
        overwrite(&mut self.bytes, at, piece)?;
        Ok(())
    }

    pub fn cut(&mut self, len: u64) -> Result<(), AllocError>
        requires { len ≤ length (reads self.old) }
        ensures done { OnOk result (told_by self.new
            ≡ CutTo len (take len (reads self.old)) (told_by self.old)) }
        ensures leaves { LeavesContent (take len (reads self.old))
            (len + 0) (length (reads self.old) - len) self.old self.new result }
    {
        let at = len as usize;
        self.log.reserve(1)?;
        let (_, over) = self.bytes.split_at(at);
        self.saved.extend_from_slice(over)?;
        self.log.push_reserved(Past::Cut {
            count: len,
            over: over.len() as u64,
        });
        self.bytes.truncate(at);
        Ok(())
    }

    pub fn sync(&mut self) -> Result<(), AllocError>
        ensures done { OnOk result (told_by self.new ≡ Synced (told_by self.old)) }
        ensures reads { reads self.new ≡ reads self.old }
        ensures leaves { LeavesContent (reads self.old) 0 0 self.old self.new result }
    {
        self.log.reserve(1)?;
        self.log.push_reserved(Past::Sync);
        Ok(())
    }

    pub fn pause(&mut self) -> Result<(), AllocError>
        ensures done { OnOk result (told_by self.new ≡ Broke (reads self.old) (told_by self.old)) }
        ensures reads { reads self.new ≡ reads self.old }
        ensures leaves { LeavesContent (reads self.old) 0 0 self.old self.new result }
    {
        self.log.reserve(1)?;
        self.log.push_reserved(Past::Pause);
        Ok(())
    }

    /// Takes the memory of so many further calls on a disk of at most that length, which overwrite so many bytes.
    pub fn reserve(&mut self, calls: u64, longest: u64, more: u64) -> Result<(), AllocError>
        ensures ok { OnOk result (HasSpace calls longest more self.new) }
        ensures same { SameContent self.old self.new }
        ensures kept { (k l m : ℕ) → HasSpace k l m self.old → HasSpace k l m self.new }
    {
        let length = self.bytes.len();
        if length < longest as usize {
            self.bytes.reserve(longest as usize - length)?;
        }
        self.log.reserve(calls as usize)?;
        self.saved.reserve(more as usize)?;
        Ok(())
    }
}
