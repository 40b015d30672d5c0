//! `run` over a disk that fails. To begin a journal takes four calls, and each turn that keeps
//! something takes four: the provider has three of them, and the requester two.

use crate::calling::{Broken, Call, called};
use crate::texts::{ASK, ASKED, TICKED, TOPOLOGY};
use std::test::Fail;

const GROUPS: &str = "at 0\nat 1\n";

/// The words, the script, whose disk fails, the first and the last call that is tried, the status, and what is written.
type Row = (
    &'static str,
    &'static str,
    &'static str,
    u64,
    u64,
    u8,
    &'static [&'static str],
);

/// What is written in place of the group whose disk fails; behind its last call nothing does. The first call of the second group
/// is that behind the calls that begin the journal and those of the first one.
const ROWS: [Row; 6] = [
    ("run", ASK, "p1", 1, 16, 7, &["fault disk p1\n"]),
    ("run", ASK, "p1", 17, 17, 0, &[ASKED, "settled 15\n"]),
    ("run", ASK, "r1", 1, 12, 7, &["fault disk r1\n"]),
    ("run", ASK, "r1", 13, 13, 0, &[ASKED, "settled 15\n"]),
    ("run", GROUPS, "p1", 9, 9, 7, &[TICKED, "fault disk p1\n"]),
    ("run --summary", GROUPS, "p1", 9, 9, 7, &["fault disk p1\n"]),
];

#[test]
fn a_broken_disk_ends_a_run(rt: HostRuntime) -> Result<(), Fail> {
    for (words, script, agent, first, last, status, written) in &ROWS {
        for number in *first..=*last {
            let call = Call {
                words,
                input: &[TOPOLOGY, script],
                disk: b"",
                broken: Broken::Disk,
                agent,
                number,
            };
            let ended = called(&rt, rt.alloc(), &call)?;
            let is_right = ended.is(rt.alloc(), *status, written)?;
            assert!(rt; is_right, "{words} {agent} {number}");
        }
    }
    Ok(())
}
