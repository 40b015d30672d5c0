//! What the parents of connections keep of their children.

use child_connection::ChildConnection;
use nsi_base::{List, Name, RecordNo, Second};
use nsi_primitive::{Header, Id, RecursiveRow};
use nsi_query::Rows;

/// A label's connection, as its requester sees it.
#[derive(Drop)]
pub struct View {
    pub label: Name,
    pub child: ChildConnection,
}

/// A segment of a path: a child, and the two points between which it reserves.
#[derive(Drop)]
pub struct Leg {
    pub child: Name,
    pub source: Name,
    pub dest: Name,
}

/// A request to a child: of which record, its correlationId, when it was caused, and whether it was told to be late.
#[derive(Clone, Copy, Debug, PartialEq, Eq)]
pub struct Due {
    pub number: RecordNo,
    pub correlation: Id,
    pub second: Second,
    pub is_told: bool,
}

/// What is known of the rows of one child, while its parent has a queryRecursive to answer.
#[derive(Debug, Drop)]
pub enum Part {
    /// None will come: the child's id wasn't known, or it answered an error.
    Missing,
    /// The child was asked under this correlationId, and hasn't answered.
    Asked(Id),
    /// What the child answered.
    Told(Rows<RecursiveRow>),
}

/// A queryRecursive that waits for the answers of children.
#[derive(Debug, Drop)]
pub struct OpenQuery {
    /// Under which it is answered.
    pub header: Header,
    /// The place of its connection among all.
    pub place: usize,
    /// One for each child, in the order of the segments.
    pub parts: List<Part>,
}
