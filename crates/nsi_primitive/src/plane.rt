//! The status of a connection's data plane.

use nsi_base::Version;

/// Whether traffic can flow, under which version of the criteria, and whether that is one version everywhere (GFD.237,
/// dataPlaneStateChange).
#[derive(Clone, Copy, Debug, PartialEq, Eq)]
pub struct Plane {
    pub active: bool,
    pub version: Version,
    pub consistent: bool,
}
