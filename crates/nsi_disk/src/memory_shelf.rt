//! A shelf of disks in memory.

ghost use Rattle.std.specs.Prelude.{◌≡◌, ◌<◌, List, ℕ, None, Some, true, IfOk, OnOk, OnErr, MatchOption, length, if◌then◌else◌, bytes_eq};
ghost use Rattle.nsi_disk.specs.Shelf.{NoneBefore, FirstAt};

use crate::memory::MemoryDisk;
use crate::plan::Stop;
use crate::shelf::{Shelf, ShelfError};
use nsi_base::Name;
use std::alloc::{AllocError, Global};

/// What is held under a name.
#[derive(Drop)]
pub struct NamedDisk {
    pub name: Name,
    pub bytes: Vec<u8>,
}

/// The call of the disk of this name that fails, counted from 1.
#[derive(Drop)]
pub struct FailAt {
    pub name: Name,
    pub call: u64,
}

/// Disks in memory by name. The first of a name counts. A count of faults or stops that reaches its type's end stays there.
#[derive(Drop)]
pub struct MemoryShelf {
    disks: Vec<NamedDisk>,
    failing: Vec<FailAt>,
    faults: u64,
    stops: u64,
}

/// The place of the first disk of this name.
fn find(disks: &[NamedDisk], name: &Name) -> Option<usize>
    ensures { MatchOption result
        (NoneBefore name.now disks.now (length disks.now)) (FirstAt name.now disks.now) }
{
    for (i, disk) in disks.iter().enumerate() {
        if disk.name.is(name) {
            return Some(i);
        }
    }
    None
}

impl MemoryShelf {
    ghost use Rattle.nsi_disk.specs.Shelf.{held, content_of, is_listed};
    ghost use Rattle.nsi_disk.specs.ShelfOf.{disks_of, faults_of, stops_of};
    ghost use Rattle.std.specs.Prelude.{◌≡◌, IfOk, bytes_eq, OnOk, OnErr, true, List, ℕ, Some, None, MatchOption, if◌then◌else◌};

    /// These disks. Of what is fetched the listed calls fail.
    pub fn new(disks: Vec<NamedDisk>, failing: Vec<FailAt>) -> MemoryShelf
        ensures disks { disks_of result ≡ disks.items }
        ensures faults { faults_of result ≡ 0 }
        ensures stops { stops_of result ≡ 0 }
    {
        MemoryShelf {
            disks,
            failing,
            faults: 0,
            stops: 0,
        }
    }

    /// What is held under this name. A name that was fetched holds something, if only an empty file.
    pub fn content(&self, name: &Name) -> Option<&[u8]>
        ensures { MatchOption result (held name.now (disks_of self.now) ≡ None)
            (λ bytes. held name.now (disks_of self.now) ≡ Some bytes.now) }
    {
        for disk in &self.disks {
            if disk.name.is(name) {
                return Some(disk.bytes.as_slice());
            }
        }
        None
    }

    /// A copy of what is held under this name.
    fn copy_of(&self, alloc: Global, name: &Name) -> Result<Vec<u8>, AllocError>
        ensures { IfOk result (λ v. v.items ≡ content_of name.now (disks_of self.now)) }
    {
        match self.content(name) {
            Some(bytes) => Vec::from_slice(alloc, bytes),
            None => Ok(Vec::new(alloc)),
        }
    }

    /// Makes a place for this name, so that a disk of it can be put back without memory.
    fn list(&mut self, alloc: Global, name: &Name) -> Result<(), AllocError>
        ensures listed { OnOk result (is_listed name.now (disks_of self.new) ≡ true) }
        ensures stays { (n : List ℕ) → is_listed n (disks_of self.old) ≡ true
            → is_listed n (disks_of self.new) ≡ true }
        ensures same { (n : List ℕ) → content_of n (disks_of self.new)
            ≡ content_of n (disks_of self.old) }
        ensures unlisted { OnErr result ((n : List ℕ) → is_listed n (disks_of self.new)
            ≡ is_listed n (disks_of self.old)) }
        ensures faults { faults_of self.new ≡ faults_of self.old }
        ensures stops { stops_of self.new ≡ stops_of self.old }
    {
        if let Some(_) = self.content(name) {
            return Ok(());
        }
        let disk = NamedDisk {
            name: name.copy()?,
            bytes: Vec::new(alloc),
        };
        self.disks.push(disk)?;
        Ok(())
    }

    /// The calls of the disk of this name that are to fail.
    fn calls_of(&self, alloc: Global, name: &Name) -> Result<Vec<u64>, AllocError> {
        let mut calls = Vec::new(alloc);
        for fail in &self.failing {
            if fail.name.is(name) {
                calls.push(fail.call)?;
            }
        }
        Ok(calls)
    }

    fn put(&mut self, name: &Name, bytes: Vec<u8>)
        requires { is_listed name.now (disks_of self.old) ≡ true }
        ensures held { (n : List ℕ) → content_of n (disks_of self.new)
            ≡ (if bytes_eq name.now n then bytes.items else content_of n (disks_of self.old)) }
        ensures stays { (n : List ℕ) → is_listed n (disks_of self.new)
            ≡ is_listed n (disks_of self.old) }
        ensures faults { faults_of self.new ≡ faults_of self.old }
        ensures stops { stops_of self.new ≡ stops_of self.old }
    {
        if let Some(i) = find(&self.disks, name) {
            self.disks[i].bytes = bytes;
        }
    }
}

impl Shelf for MemoryShelf {
    ghost use Rattle.nsi_disk.specs.Shelf.{content_of, is_listed};
    ghost use Rattle.nsi_disk.specs.ShelfOf.{disks_of, faults_of, stops_of};
    ghost use Rattle.std.specs.Prelude.{Some};

    type Disk = MemoryDisk;

    ghost holds = { λ s name. Some (content_of name (disks_of s)) };

    ghost listed = { λ s name. is_listed name (disks_of s) };

    ghost faults = { λ s. faults_of s };

    ghost stops = { λ s. stops_of s };

    fn fetch(
        &mut self,
        alloc: Global,
        name: &Name,
        planned: &[Stop],
    ) -> Result<MemoryDisk, ShelfError> {
        let bytes = self.copy_of(alloc, name)?;
        let failing = self.calls_of(alloc, name)?;
        let stops = Vec::from_slice(alloc, planned)?;
        self.list(alloc, name)?;
        Ok(MemoryDisk::new(alloc, bytes, failing, stops))
    }

    fn fetch_again(
        &mut self,
        alloc: Global,
        _: &Name,
        disk: MemoryDisk,
    ) -> Result<MemoryDisk, ShelfError> {
        let stops = disk.stops();
        match disk.again(alloc) {
            Ok(disk) => Ok(disk),
            Err(error) => {
                self.stops = self.stops.saturating_add(stops);
                Err(error.into())
            }
        }
    }

    fn give_back(&mut self, name: &Name, disk: MemoryDisk) {
        self.faults = self.faults.saturating_add(disk.faults());
        self.stops = self.stops.saturating_add(disk.stops());
        self.put(name, disk.into_bytes());
    }
}
