//! The room that a disk in memory has made for further calls.

ghost use Rattle.std.specs.Prelude.{◌≡◌, ◌⊎◌, ◌-◌, ◌+◌};
ghost use Rattle.nsi_disk.specs.RoomOf.{WithinRoom};

/// So many calls more, on a disk of at most the length `longest`, which write or cut away at most so many bytes.
#[derive(Clone, Copy, Debug)]
pub struct Room {
    pub calls: u64,
    pub longest: u64,
    pub bytes: u64,
}

impl Room {
    /// Uses the room of one call that changes nothing.
    pub fn skip(&mut self)
        ensures fewer { self.new.calls ≡ self.old.calls - 1 }
        ensures longest { self.new.longest ≡ self.old.longest }
        ensures bytes { self.new.bytes ≡ self.old.bytes }
    {
        self.calls = self.calls.saturating_sub(1);
    }

    /// Uses the room of one call that touches `n` bytes at this place and spends so many, on a disk of that length. Where
    /// the call is out of the room, there is none left.
    pub fn take(&mut self, place: u64, n: usize, spent: usize, length: usize)
        ensures fewer { WithinRoom self.old (place + n) spent length
            → self.new.calls ≡ self.old.calls - 1 }
        ensures spends { WithinRoom self.old (place + n) spent length
            → self.new.bytes ≡ self.old.bytes - spent }
        ensures tells { WithinRoom self.old (place + n) spent length
            ⊎ ((self.new.calls ≡ 0) × (self.new.bytes ≡ 0)) }
        ensures longest { self.new.longest ≡ self.old.longest }
    {
        let longest = self.longest;
        if 1 <= self.calls
            && place <= longest
            && n as u64 <= longest - place
            && spent as u64 <= self.bytes
            && length as u64 <= longest
        {
            self.calls -= 1;
            self.bytes -= spent as u64;
        } else {
            self.calls = 0;
            self.bytes = 0;
        }
    }
}
