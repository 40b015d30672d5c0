//! A call of a command over bytes and disks in memory, of which one call may fail.

use crate::texts::text_of;
use nsi_base::Name;
use nsi_disk::{FailAt, MemoryShelf, NamedDisk};
use nsi_outside::{MemorySink, MemorySource};
use nsi_program::top_plain;
use std::alloc::{AllocError, Global};
use std::thread::Threads;

/// What fails at a call: of the source, of the sink, of both, or of an agent's disk.
#[derive(Clone, Copy, Debug, PartialEq, Eq)]
pub(crate) enum Broken {
    Nothing,
    Read,
    Write,
    ReadAndWrite,
    Disk,
}

/// The words and pieces of the input, what the disk p1 holds, and what fails at the call with this number.
#[derive(Clone, Copy)]
pub(crate) struct Call<'a> {
    pub(crate) words: &'a str,
    pub(crate) input: &'a [&'a str],
    pub(crate) disk: &'a [u8],
    pub(crate) broken: Broken,
    pub(crate) agent: &'a str,
    pub(crate) number: u64,
}

impl<'a> Call<'a> {
    /// A call over the disk in which nothing fails.
    pub(crate) fn of(words: &'a str, input: &'a [&'a str], disk: &'a [u8]) -> Call<'a> {
        Call {
            words,
            input,
            disk,
            broken: Broken::Nothing,
            agent: "p1",
            number: 0,
        }
    }

    fn reads(&self, alloc: Global) -> Result<Vec<u64>, AllocError> {
        match self.broken {
            Broken::Read | Broken::ReadAndWrite => Vec::from_slice(alloc, &[self.number]),
            _ => Ok(Vec::new(alloc)),
        }
    }

    fn writes(&self, alloc: Global) -> Result<Vec<u64>, AllocError> {
        match self.broken {
            Broken::Write | Broken::ReadAndWrite => Vec::from_slice(alloc, &[self.number]),
            _ => Ok(Vec::new(alloc)),
        }
    }

    fn failing(&self, alloc: Global) -> Result<Vec<FailAt>, AllocError> {
        let mut failing = Vec::new(alloc);
        if self.broken == Broken::Disk {
            let name = name_of(alloc, self.agent)?;
            let call = self.number;
            failing.push(FailAt { name, call })?;
        }
        Ok(failing)
    }

    fn shelf(&self, alloc: Global) -> Result<MemoryShelf, AllocError> {
        let mut disks = Vec::new(alloc);
        let name = name_of(alloc, "p1")?;
        let bytes = Vec::from_slice(alloc, self.disk)?;
        disks.push(NamedDisk { name, bytes })?;
        let failing = self.failing(alloc)?;
        Ok(MemoryShelf::new(disks, failing))
    }
}

fn name_of(alloc: Global, agent: &str) -> Result<Name, AllocError> {
    match Name::of(alloc, agent.as_bytes()) {
        Ok(name) => Ok(name),
        Err(_) => Err(AllocError),
    }
}

fn words_of(alloc: Global, words: &str) -> Result<Vec<String>, AllocError> {
    let mut all = Vec::new(alloc);
    for word in words.split_whitespace() {
        all.push(String::from_str(alloc, word)?)?;
    }
    Ok(all)
}

/// What a call wrote, its status, and what the disk p1 holds then.
#[derive(Drop)]
pub(crate) struct Ended {
    pub(crate) status: u8,
    pub(crate) written: Vec<u8>,
    pub(crate) disk: Vec<u8>,
}

impl Ended {
    /// Whether it ended with the status and wrote these pieces.
    pub(crate) fn is(
        &self,
        alloc: Global,
        status: u8,
        written: &[&str],
    ) -> Result<bool, AllocError> {
        let text = text_of(alloc, written)?;
        Ok(self.status == status && self.written.as_slice() == text.as_bytes())
    }
}

/// A copy of what is held under the name p1.
fn content_of(alloc: Global, shelf: &MemoryShelf) -> Result<Vec<u8>, AllocError> {
    match shelf.content(&name_of(alloc, "p1")?) {
        Some(bytes) => Vec::from_slice(alloc, bytes),
        None => Ok(Vec::new(alloc)),
    }
}

/// The call, with these bytes in place of its input.
pub(crate) fn called_with(
    rt: &(impl Threads + Sync),
    alloc: Global,
    call: &Call<'_>,
    input: Vec<u8>,
) -> Result<Ended, AllocError> {
    let words = words_of(alloc, call.words)?;
    let mut source = MemorySource::new(input, call.reads(alloc)?);
    let mut sink = MemorySink::new(alloc, call.writes(alloc)?);
    let mut shelf = call.shelf(alloc)?;
    let status = top_plain(rt, alloc, &words, &mut source, &mut sink, &mut shelf).code();
    let written = Vec::from_slice(alloc, sink.bytes())?;
    let disk = content_of(alloc, &shelf)?;
    Ok(Ended {
        status,
        written,
        disk,
    })
}

pub(crate) fn called(
    rt: &(impl Threads + Sync),
    alloc: Global,
    call: &Call<'_>,
) -> Result<Ended, AllocError> {
    let input = text_of(alloc, call.input)?;
    called_with(rt, alloc, call, input.into_bytes())
}
