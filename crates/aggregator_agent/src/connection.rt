//! A connection of an aggregator.

use child_connection::ChildConnection;
use connection_record::{Record, Reply};
use nsi_primitive::Message;

/// Its own record, and its views of the connections below, in the order of the segments.
#[derive(Drop)]
pub struct Connection {
    pub own: Record,
    pub children: Vec<ChildConnection>,
}

/// What a connection says in the course of an entry: answers, requests to children, notices; and the number of the next
/// id.
#[derive(Drop)]
pub struct Turning {
    pub replies: Vec<Reply>,
    pub asked: Vec<Message>,
    pub notices: Vec<Reply>,
    pub next: u64,
}
