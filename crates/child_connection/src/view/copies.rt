//! Copies of a view.

ghost use Rattle.std.specs.Prelude.{◌≡◌, ◌≤◌, IfOk, vec_len, vec_capacity};

use super::ChildConnection;
use nsi_base::Version;
use std::alloc::{AllocError, Global};

impl ChildConnection {
    /// An equal view, which has room for the version of an unanswered commit too.
    pub fn copy(&self) -> Result<ChildConnection, AllocError>
        ensures { IfOk result (λ x. x ≡ self.now) }
    {
        let alloc = *self.committed.allocator();
        let committed = copy_versions(alloc, &self.committed, self.room)?;
        Ok(ChildConnection {
            child: self.child.copy()?,
            source: self.source.copy()?,
            dest: self.dest.copy()?,
            connection: self.connection,
            phase: self.phase,
            before: self.before,
            attempt: self.attempt,
            pending: self.pending,
            committed,
            error: self.error,
            reserve_request: self.reserve_request,
            provision_request: self.provision_request,
            lifecycle_request: self.lifecycle_request,
            provision_error: self.provision_error,
            gone: self.gone,
            plane: self.plane,
            plane_notice: self.plane_notice,
            room: self.room,
        })
    }
}

/// The same versions, with room for so many.
fn copy_versions(
    alloc: Global,
    versions: &[Version],
    room: usize,
) -> Result<Vec<Version>, AllocError>
    ensures copy { IfOk result (λ copy. copy.items ≡ versions.now) }
    ensures room { IfOk result (λ copy. room ≤ vec_capacity copy) }
{
    let mut copy = Vec::new(alloc);
    for version in versions {
        copy.push(*version)?;
    }
    copy.reserve(room.saturating_sub(versions.len()))?;
    Ok(copy)
}
