//! Instances of a design.

/// The position of an instance in a design. The top has none.
#[derive(Clone, Copy, PartialEq, Eq)]
pub struct Position {
    /// The number of the instance in which it stands.
    pub parent: usize,
    /// Its number among the instances there.
    pub child: usize,
}

/// An instance of a design. They are numbered from 0 in preorder.
#[derive(Clone, Copy, PartialEq, Eq)]
pub struct Instance {
    /// The number of its entity.
    pub entity: u32,
    pub position: Option<Position>,
}
