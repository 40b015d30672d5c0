//! A shelf in memory of whose disks one waits for another one.

use nsi_base::Name;
use nsi_disk::{Disk, DiskError, Shelf, ShelfError, Stop};
use std::alloc::{AllocError, Global};
use std::sync::atomic::{AtomicU64, Ordering};

/// What an agent's disk does at the sync of its first turn.
#[derive(Clone, Copy, Debug, PartialEq, Eq)]
enum Part {
    Waits,
    Comes,
    Goes,
}

/// Where one disk waits until the other has come, or for so many looks.
#[derive(Drop)]
pub(crate) struct Gate {
    looks: u64,
    has_come: AtomicU64,
    gave_up: AtomicU64,
}

impl Gate {
    pub(crate) fn new(looks: u64) -> Gate {
        Gate {
            looks,
            has_come: AtomicU64::new(0),
            gave_up: AtomicU64::new(0),
        }
    }

    fn pass(&self, part: Part) {
        match part {
            Part::Waits => self.wait(),
            Part::Comes => self.has_come.store(1, Ordering::SeqCst),
            Part::Goes => {}
        }
    }

    fn wait(&self) {
        for _ in 0..self.looks {
            if self.has_come.load(Ordering::SeqCst) == 1 {
                return;
            }
        }
        self.gave_up.store(1, Ordering::SeqCst);
    }

    /// Whether the one that waited has seen the other one.
    pub(crate) fn has_met(&self) -> bool {
        self.has_come.load(Ordering::SeqCst) == 1 && self.gave_up.load(Ordering::SeqCst) == 0
    }
}

/// A disk in memory that passes a gate at the sync of its agent's first turn, which is its third: two begin the journal.
#[derive(Drop)]
pub(crate) struct GatedDisk<'g, D: Disk + Drop> {
    disk: D,
    gate: &'g Gate,
    part: Part,
    syncs: u8,
}

impl<'g, D: Disk + Drop> Disk for GatedDisk<'g, D> {
    ghost history = { λ d. D.history d.disk };

    ghost meter = { λ d. D.meter d.disk };

    ghost reads_image = { λ d. D.reads_image d.disk };

    ghost few_stops = { λ d. D.few_stops d.disk };

    fn length(&mut self) -> Result<u64, DiskError> {
        self.disk.length()
    }

    fn read_at(&mut self, place: u64, buffer: &mut [u8]) -> Result<(), DiskError> {
        self.disk.read_at(place, buffer)
    }

    fn write_at(&mut self, place: u64, piece: &[u8]) -> Result<(), DiskError> {
        self.disk.write_at(place, piece)
    }

    fn cut(&mut self, len: u64) -> Result<(), DiskError> {
        self.disk.cut(len)
    }

    fn sync(&mut self) -> Result<(), DiskError> {
        if self.syncs < 3 {
            self.syncs += 1;
            if self.syncs == 3 {
                self.gate.pass(self.part);
            }
        }
        self.disk.sync()
    }

    fn make_room(&mut self, calls: u64, longest: u64, bytes: u64) -> Result<(), AllocError> {
        self.disk.make_room(calls, longest, bytes)
    }
}

/// The disk of the name `p0` waits, and that of `r9` comes.
#[derive(Drop)]
pub(crate) struct GatedShelf<'g, H: Shelf + Drop> {
    shelf: H,
    gate: &'g Gate,
}

impl<'g, H: Shelf + Drop> GatedShelf<'g, H> {
    pub(crate) fn new(shelf: H, gate: &'g Gate) -> GatedShelf<'g, H> {
        GatedShelf { shelf, gate }
    }
}

fn part_of(name: &Name) -> Part {
    match name.bytes() {
        b"p0" => Part::Waits,
        b"r9" => Part::Comes,
        _ => Part::Goes,
    }
}

impl<'g, H: Shelf + Drop> Shelf for GatedShelf<'g, H>
where
    H::Disk: Drop,
{
    type Disk = GatedDisk<'g, H::Disk>;

    ghost holds = { λ s. H.holds s.shelf };

    ghost listed = { λ s. H.listed s.shelf };

    ghost faults = { λ s. H.faults s.shelf };

    ghost stops = { λ s. H.stops s.shelf };

    fn fetch(
        &mut self,
        alloc: Global,
        name: &Name,
        planned: &[Stop],
    ) -> Result<GatedDisk<'g, H::Disk>, ShelfError> {
        let disk = self.shelf.fetch(alloc, name, planned)?;
        Ok(GatedDisk {
            disk,
            gate: self.gate,
            part: part_of(name),
            syncs: 0,
        })
    }

    fn fetch_again(
        &mut self,
        alloc: Global,
        name: &Name,
        disk: GatedDisk<'g, H::Disk>,
    ) -> Result<GatedDisk<'g, H::Disk>, ShelfError> {
        let GatedDisk {
            disk,
            gate,
            part,
            syncs,
        } = disk;
        let disk = self.shelf.fetch_again(alloc, name, disk)?;
        Ok(GatedDisk {
            disk,
            gate,
            part,
            syncs,
        })
    }

    fn give_back(&mut self, name: &Name, disk: GatedDisk<'g, H::Disk>) {
        let GatedDisk {
            disk,
            gate: _,
            part: _,
            syncs: _,
        } = disk;
        self.shelf.give_back(name, disk);
    }
}
