use crate::bytes::Name;
use crate::list::List;

/// One bit of the ports of the top unit.
#[derive(Drop)]
pub struct PortBit {
    /// The name that is printed for it.
    pub name: Name,
    /// Whether a stimulus may drive it: its mode is in or inout.
    pub input: bool,
    /// The byte of the level that it has before the first transaction: its default, else `U`.
    pub initial: u8,
}

/// The bits of the top unit's ports, in order.
pub type Ports = List<PortBit>;
