//! The ports of timing checks.

use crate::entry::Port;
use vital_base::Name;

/// A port of a timing check.
#[derive(Drop)]
pub(crate) struct CheckPort {
    /// The name of its condition, if one is written.
    pub(crate) condition: Option<Name>,
    /// The port, if it ends with one.
    pub(crate) port: Option<Port>,
}
