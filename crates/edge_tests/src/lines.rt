//! Lines from memory, of which one read after another fails.

use line_reader::{LineReader, Next};
use nsi_outside::MemorySource;
use std::alloc::Global;
use std::test::Fail;

fn source(alloc: Global, text: &str, failing: &[u64]) -> Result<MemorySource, Fail> {
    let bytes = Vec::from_slice(alloc, text.as_bytes())?;
    Ok(MemorySource::new(bytes, Vec::from_slice(alloc, failing)?))
}

/// All lines, each with a bar behind it, and how often reading failed.
#[derive(Drop)]
struct Lines {
    text: Vec<u8>,
    faults: usize,
}

fn read_through(alloc: Global, text: &str, failing: &[u64]) -> Result<Lines, Fail> {
    let mut input = source(alloc, text, failing)?;
    let mut reader = LineReader::new(alloc, 100_000);
    let mut lines = Lines {
        text: Vec::new(alloc),
        faults: 0,
    };
    for _ in 0..12 {
        match reader.next(alloc, &mut input) {
            Ok(Next::Line(line)) => {
                lines.text.extend_from_slice(&line)?;
                lines.text.push(b'|')?;
            }
            Ok(_) => return Ok(lines),
            Err(_) => lines.faults = lines.faults.saturating_add(1),
        }
    }
    Ok(lines)
}

#[test]
fn each_read_may_fail(rt: HostRuntime) -> Result<(), Fail> {
    let alloc = rt.alloc();
    let long = "x".repeat(alloc, 9_000)?;
    let text = format!(in alloc; "a\n{long}\r\n\n{long}")?;
    let wanted = format!(in alloc; "a|{long}||{long}|")?;
    // Three pieces, the end, and the end once more.
    for n in 1..=5 {
        let lines = read_through(alloc, &text, &[n])?;
        assert!(rt; lines.text.as_slice() == wanted.as_bytes(), "read {n}");
        assert_eq!(rt; lines.faults, 1);
    }
    let lines = read_through(alloc, &text, &[6])?;
    assert_eq!(rt; lines.faults, 0);
    Ok(())
}
