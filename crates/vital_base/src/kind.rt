/// The delay mechanism of a signal assignment (IEEE 1076-1993, 8.4).
#[derive(Clone, Copy, Debug, PartialEq, Eq)]
pub enum Kind {
    /// Every later pending transaction is deleted, and the earlier ones stay.
    Transport,
    /// As transport, and then the pending transactions are rejected that do not lead to the new value.
    Inertial,
}
