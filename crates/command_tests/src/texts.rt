//! Texts that are given to the commands, and those that they write. Ids are short: `P#1` is the first that the provider makes,
//! and `R#1` the requester's first.

use std::alloc::{AllocError, Global};

/// A provider with two points of 1000 Mbps, and its requester.
pub(crate) const TOPOLOGY: &str =
    "agent p1 provider 60\nagent r1 requester p1\nstp p1 A 1000\nstp p1 B 1000\n---\n";

/// A request for bandwidth.
pub(crate) const RESERVE: &str =
    "{\"kind\":\"reserve\",\"correlationId\":\"R#1\",\"requesterNSA\":\"r1\",\"providerNSA\":\"p1\",\"capacity\":600,\"startTime\":100,\"endTime\":200,\"sourceSTP\":\"A\",\"destSTP\":\"B\"}\n";

pub(crate) const ANSWER: &str =
    r#"{"connectionId":"P#1","correlationId":"R#1","kind":"reserveResponse","providerNSA":"p1","requesterNSA":"r1"}
{"capacity":600,"connectionId":"P#1","correlationId":"R#1","destSTP":"B","directionality":"Bidirectional","endTime":"1970-01-01T00:03:20Z","kind":"reserveConfirmed","providerNSA":"p1","requesterNSA":"r1","sourceSTP":"A","startTime":"1970-01-01T00:01:40Z","version":0}
"#;

/// The commit of the reserve, and its answer.
pub(crate) const COMMIT: &str =
    "{\"kind\":\"reserveCommit\",\"correlationId\":\"R#2\",\"requesterNSA\":\"r1\",\"providerNSA\":\"p1\",\"connectionId\":\"P#1\"}\n";

pub(crate) const COMMITTED: &str =
    "{\"connectionId\":\"P#1\",\"correlationId\":\"R#2\",\"kind\":\"reserveCommitConfirmed\",\"providerNSA\":\"p1\",\"requesterNSA\":\"r1\"}\n";

/// A request that is confirmed only behind the commit.
pub(crate) const PROVISION: &str =
    "{\"kind\":\"provision\",\"correlationId\":\"R#3\",\"requesterNSA\":\"r1\",\"providerNSA\":\"p1\",\"connectionId\":\"P#1\"}\n";

pub(crate) const PROVISIONED: &str =
    "{\"connectionId\":\"P#1\",\"correlationId\":\"R#3\",\"kind\":\"provisionConfirmed\",\"providerNSA\":\"p1\",\"requesterNSA\":\"r1\"}\n";

/// The answer to a faulty tick in the first line behind the topology.
pub(crate) const TICK: &str =
    "{\"errorId\":\"PAYLOAD\",\"fault\":\"Tick\",\"kind\":\"error\",\"line\":6}\n";

/// One circuit is asked for and held, at one provider.
pub(crate) const ASK: &str = "at 0\nask r1 reserve c1 A B 600 100 200\n";

/// Its fifteen events.
pub(crate) const ASKED: &str = r#"tick p1 0
tick r1 0
ask r1 sent reserve c1 A B 600 100 200
sync p1 1
sync r1 2
got p1 {"capacity":600,"correlationId":"R#1","destSTP":"B","endTime":"1970-01-01T00:03:20Z","kind":"reserve","providerNSA":"p1","requesterNSA":"r1","sourceSTP":"A","startTime":"1970-01-01T00:01:40Z"}
work p1 0 reserve
sync p1 3
acked r1 {"correlationId":"R#1","kind":"ack","of":"reserve","providerNSA":"p1","requesterNSA":"r1"}
got r1 {"connectionId":"P#1","correlationId":"R#1","kind":"reserveResponse","providerNSA":"p1","requesterNSA":"r1"}
got r1 {"capacity":600,"connectionId":"P#1","correlationId":"R#1","destSTP":"B","directionality":"Bidirectional","endTime":"1970-01-01T00:03:20Z","kind":"reserveConfirmed","providerNSA":"p1","requesterNSA":"r1","sourceSTP":"A","startTime":"1970-01-01T00:01:40Z","version":0}
sync r1 5
acked p1 {"correlationId":"R#1","kind":"ack","of":"reserveResponse","providerNSA":"p1","requesterNSA":"r1"}
acked p1 {"correlationId":"R#1","kind":"ack","of":"reserveConfirmed","providerNSA":"p1","requesterNSA":"r1"}
sync p1 5
"#;

/// What a group writes that asks for nothing.
pub(crate) const TICKED: &str = "tick p1 0\ntick r1 0\nsync p1 1\nsync r1 1\n";

/// The pieces, one behind the other, with their ids in full. In place of `LONG` stand so many bytes that a line with them begins
/// in one piece of 8,192 bytes and ends in the next one.
pub(crate) fn text_of(alloc: Global, pieces: &[&str]) -> Result<String, AllocError> {
    let mut text = String::new(alloc);
    for piece in pieces {
        text.push_str(piece)?;
    }
    let provider = text.replace(alloc, "P#", "urn:uuid:00000000-0000-8000-8000-00000000000")?;
    let both = provider.replace(alloc, "R#", "urn:uuid:00000000-0001-8000-8000-00000000000")?;
    let long = "b".repeat(alloc, 9_000)?;
    both.replace(alloc, "LONG", long.as_str())
}
