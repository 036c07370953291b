//! Which of three values is taken.

/// Which value of a triple is taken of an SDF file (IEEE 1497): the least, the typical or the greatest.
#[derive(Clone, Copy, PartialEq, Eq)]
pub enum Corner {
    Min,
    Typ,
    Max,
}
