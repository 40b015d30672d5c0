//! A disk in memory.

ghost use Rattle.std.specs.Prelude.{◌≡◌, Some, false, length, IfOk};
ghost use Rattle.nsi_disk.specs.Disk.{Fresh, MayLeave, seen};

use crate::content::Content;
use crate::plan::{Image, Plan, Stop};
use crate::tape::Tape;
use crate::{Disk, DiskError, reopen};
use std::alloc::{AllocError, Global};

/// A disk in memory, which fails and stops where that was planned. A stop at a sync leaves with `Torn` what was written,
/// since the sync was carried out. A call that is refused since the disk has stopped isn't counted; one that is planned to
/// fail and to stop fails. A write costs its own bytes, however long the file is; to fetch the disk again costs the file
/// once for each call since the last sync.
#[derive(Drop)]
pub struct MemoryDisk {
    tape: Tape,
    plan: Plan,
    /// What a crash leaves, where the disk has stopped.
    shown: Option<Image>,
}

impl MemoryDisk {
    ghost use Rattle.nsi_disk.specs.Disk.{IsImageOf};
    ghost use Rattle.nsi_disk.specs.DiskOf.{history_of, meter_of, plan_of, left_of};
    ghost use Rattle.nsi_disk.specs.Plan.{first_plan};

    #[tactic(auto, using(crate::proofs::Coming::few_to_come))]
    /// These bytes. The calls with the listed numbers, counted from 1, fail once each, and it stops where it is planned.
    pub fn new(alloc: Global, bytes: Vec<u8>, failing: Vec<u64>, stops: Vec<Stop>) -> MemoryDisk
        ensures bytes { history_of result ≡ Fresh bytes.items }
        ensures runs { (meter_of result).stopped ≡ false }
        ensures faults { (meter_of result).faults ≡ 0 }
        ensures stops { (meter_of result).stops ≡ 0 }
        ensures planned { (meter_of result).planned ≡ length stops.items }
        ensures calls { (meter_of result).calls ≡ 0 }
        ensures plan { plan_of result ≡ first_plan failing.items stops.items }
    {
        MemoryDisk {
            tape: Tape::new(alloc, bytes),
            plan: Plan {
                calls: 0,
                failing,
                stops,
                faults: 0,
                stopped: 0,
            },
            shown: None,
        }
    }

    /// What was written, also by the call that stopped the disk.
    pub fn into_bytes(self) -> Vec<u8>
        ensures image { MayLeave (history_of self) result.items }
        ensures seen { (meter_of self).stopped ≡ false → result.items ≡ seen (history_of self) }
    {
        let MemoryDisk {
            tape,
            plan: _,
            shown: _,
        } = self;
        let Tape { content, room: _ } = tape;
        content.into_bytes()
    }

    /// How many of its calls failed.
    pub fn faults(&self) -> u64
        ensures { result ≡ (meter_of self.now).faults }
    {
        self.plan.faults
    }

    /// How many of its calls stopped it.
    pub fn stops(&self) -> u64
        ensures { result ≡ (meter_of self.now).stops }
    {
        self.plan.stopped
    }

    /// The disk after a crash now, with no room: the same plan, and the same counts.
    pub fn again(self, alloc: Global) -> Result<MemoryDisk, AllocError>
        ensures image { IfOk result (λ d. IsImageOf (history_of self) (history_of d)) }
        ensures left { IfOk result (λ d. history_of d ≡ Fresh (left_of self)) }
        ensures runs { IfOk result (λ d. (meter_of d).stopped ≡ false) }
        ensures faults { IfOk result (λ d. (meter_of d).faults ≡ (meter_of self).faults) }
        ensures stops { IfOk result (λ d. (meter_of d).stops ≡ (meter_of self).stops) }
        ensures planned { IfOk result (λ d. (meter_of d).planned ≡ (meter_of self).planned) }
        ensures calls { IfOk result (λ d. (meter_of d).calls ≡ 0) }
        ensures plan { IfOk result (λ d. plan_of d ≡ plan_of self) }
    {
        let MemoryDisk { tape, plan, shown } = self;
        let Tape { content, room: _ } = tape;
        let bytes = reopen::left(alloc, shown, content)?;
        Ok(MemoryDisk {
            tape: Tape::new(alloc, bytes),
            plan,
            shown: None,
        })
    }
}

impl Disk for MemoryDisk {
    ghost use Rattle.nsi_disk.specs.DiskOf.{history_of, meter_of};
    ghost use Rattle.nsi_disk.specs.Memory.{told_by};
    ghost use Rattle.nsi_disk.specs.Stopped.{reads_image as reads_one};
    ghost use Rattle.nsi_disk.specs.PlanOf.{stops_within};

    ghost history = { λ d. Some (history_of d) };

    ghost meter = { λ d. meter_of d };

    ghost reads_image = { λ d. reads_one d.shown (told_by d.tape.content) d.tape.made };

    ghost few_stops = { λ d. stops_within d.plan };

    fn length(&mut self) -> Result<u64, DiskError> {
        match self.plan.next(self.shown) {
            Err(error) => {
                self.tape.skip();
                Err(error)
            }
            Ok(None) => {
                self.tape.skip();
                Ok(self.tape.content.bytes.len() as u64)
            }
            Ok(Some(image)) => {
                self.tape.pause(0, 0)?;
                self.shown = Some(image);
                Err(DiskError::Stopped)
            }
        }
    }

    fn read_at(&mut self, place: u64, buffer: &mut [u8]) -> Result<(), DiskError> {
        match self.plan.next(self.shown) {
            Err(error) => {
                self.tape.skip();
                Err(error)
            }
            Ok(None) => {
                self.tape.skip();
                let (_, behind) = self.tape.content.bytes.split_at(place as usize);
                let (piece, _) = behind.split_at(buffer.len());
                buffer.copy_from_slice(piece);
                Ok(())
            }
            Ok(Some(image)) => {
                self.tape.pause(place, buffer.len())?;
                self.shown = Some(image);
                Err(DiskError::Stopped)
            }
        }
    }

    fn write_at(&mut self, place: u64, piece: &[u8]) -> Result<(), DiskError> {
        match self.plan.next(self.shown) {
            Err(error) => {
                self.tape.skip();
                Err(error)
            }
            Ok(None) => {
                self.tape.write(place, piece)?;
                Ok(())
            }
            Ok(Some(image)) => {
                self.tape.write(place, piece)?;
                self.shown = Some(image);
                Err(DiskError::Stopped)
            }
        }
    }

    fn cut(&mut self, len: u64) -> Result<(), DiskError> {
        match self.plan.next(self.shown) {
            Err(error) => {
                self.tape.skip();
                Err(error)
            }
            Ok(None) => {
                self.tape.cut(len)?;
                Ok(())
            }
            Ok(Some(image)) => {
                self.tape.cut(len)?;
                self.shown = Some(image);
                Err(DiskError::Stopped)
            }
        }
    }

    fn sync(&mut self) -> Result<(), DiskError> {
        match self.plan.next(self.shown) {
            Err(error) => {
                self.tape.skip();
                Err(error)
            }
            Ok(None) => {
                self.tape.sync()?;
                Ok(())
            }
            Ok(Some(image)) => {
                self.tape.pause(0, 0)?;
                self.shown = Some(image.of_sync());
                Err(DiskError::Stopped)
            }
        }
    }

    fn make_room(&mut self, calls: u64, longest: u64, bytes: u64) -> Result<(), AllocError> {
        self.tape.make_room(calls, longest, bytes)
    }
}
