//! A content with room for further calls.

ghost use Rattle.std.specs.Prelude.{◌≡◌, ◌≤◌, ◌+◌, ◌-◌, length, OnOk, OnErr};
ghost use Rattle.nsi_disk.specs.Disk.{Fresh, Synced, seen, wrote, was_cut, went_wrong};
ghost use Rattle.nsi_disk.specs.Images.{Made, Made-prop};
ghost use Rattle.nsi_disk.specs.Memory.{told_by, HasSpace};
ghost use Rattle.nsi_disk.specs.RoomOf.{SpendsRoom, GoesOn, room_of};

use crate::content::Content;
use crate::room::Room;
use std::alloc::{AllocError, Global};

#[derive(Drop)]
pub struct Tape {
    pub content: Content,
    pub room: Room,
    ghost made: { Made (told_by content) } by { Made-prop (told_by content) },
    ghost space: { HasSpace room.calls room.longest room.bytes content },
}

impl Tape {
    /// These bytes, with no room.
    pub fn new(alloc: Global, bytes: Vec<u8>) -> Tape
        ensures fresh { told_by result.content ≡ Fresh bytes.items }
        ensures calls { result.room.calls ≡ 0 }
        ensures longest { result.room.longest ≡ 0 }
        ensures bytes { result.room.bytes ≡ 0 }
    {
        let log = Vec::new(alloc);
        let saved = Vec::new(alloc);
        Tape {
            content: Content { bytes, log, saved },
            room: Room {
                calls: 0,
                longest: 0,
                bytes: 0,
            },
        }
    }

    /// A call that changes nothing.
    pub fn skip(&mut self)
        ensures same { told_by self.new.content ≡ told_by self.old.content }
        ensures room { self.new.room.calls ≡ self.old.room.calls - 1 }
        ensures longest { self.new.room.longest ≡ self.old.room.longest }
        ensures bytes { self.new.room.bytes ≡ self.old.room.bytes }
    {
        self.room.skip();
    }

    pub fn write(&mut self, place: u64, piece: &[u8]) -> Result<(), AllocError>
        requires { place ≤ length (seen (told_by self.old.content)) }
        ensures goes_on { GoesOn (wrote place piece.now (told_by self.old.content))
            self.old.content self.new.content self.old.room self.new.room result }
        ensures room { SpendsRoom (place + length piece.now) (length piece.now)
            (length (seen (told_by self.old.content))) self.old.room self.new.room result }
    {
        let length = self.content.bytes.len();
        self.room.take(place, piece.len(), piece.len(), length);
        self.content.write(place, piece)
    }

    pub fn cut(&mut self, len: u64) -> Result<(), AllocError>
        requires { len ≤ length (seen (told_by self.old.content)) }
        ensures goes_on { GoesOn (was_cut len (told_by self.old.content))
            self.old.content self.new.content self.old.room self.new.room result }
        ensures room { SpendsRoom (len + 0) (length (seen (told_by self.old.content)) - len)
            (length (seen (told_by self.old.content))) self.old.room self.new.room result }
    {
        let length = self.content.bytes.len();
        self.room.take(len, 0, length - len as usize, length);
        self.content.cut(len)
    }

    pub fn sync(&mut self) -> Result<(), AllocError>
        ensures goes_on { GoesOn (Synced (told_by self.old.content))
            self.old.content self.new.content self.old.room self.new.room result }
        ensures room { SpendsRoom 0 0
            (length (seen (told_by self.old.content))) self.old.room self.new.room result }
    {
        let length = self.content.bytes.len();
        self.room.take(0, 0, 0, length);
        self.content.sync()
    }

    pub fn pause(&mut self, place: u64, n: usize) -> Result<(), AllocError>
        ensures goes_on { GoesOn (went_wrong (told_by self.old.content))
            self.old.content self.new.content self.old.room self.new.room result }
        ensures room { SpendsRoom (place + n) 0
            (length (seen (told_by self.old.content))) self.old.room self.new.room result }
    {
        let length = self.content.bytes.len();
        self.room.take(place, n, 0, length);
        self.content.pause()
    }

    pub fn make_room(&mut self, calls: u64, longest: u64, bytes: u64) -> Result<(), AllocError>
        ensures same { told_by self.new.content ≡ told_by self.old.content }
        ensures ok { OnOk result (self.new.room ≡ room_of calls longest bytes) }
        ensures err { OnErr result (self.new.room ≡ self.old.room) }
    {
        self.content.reserve(calls, longest, bytes)?;
        self.room = Room {
            calls,
            longest,
            bytes,
        };
        Ok(())
    }
}
