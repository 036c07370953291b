//! Masks of the rows that a column lets match. Bit k of a mask stands for row k.

ghost use Rattle.std.specs.Prelude.{◌≡◌};
ghost use Rattle.vital_table.specs.Masks.{change_mask_at, mask_at};

use vital_logic::{Level, to_x01};

/// For each of X, 0 and 1, the rows that match it.
#[derive(Clone, Copy)]
pub(crate) struct LevelMasks {
    pub(crate) x: u128,
    pub(crate) zero: u128,
    pub(crate) one: u128,
}

/// For each change between X, 0 and 1, the rows that match it: by the previous level, and in it by the present level.
#[derive(Clone, Copy)]
pub(crate) struct ChangeMasks {
    pub(crate) from_x: LevelMasks,
    pub(crate) from_zero: LevelMasks,
    pub(crate) from_one: LevelMasks,
}

impl LevelMasks {
    /// The rows that match a level, which is taken without its strength.
    pub(crate) fn at(&self, level: Level) -> u128
        ensures { result ≡ mask_at self.now level }
    {
        match to_x01(level) {
            Level::Zero => self.zero,
            Level::One => self.one,
            _ => self.x,
        }
    }
}

impl ChangeMasks {
    /// The rows that match a previous and a present level, which are taken without their strengths.
    pub(crate) fn at(&self, old: Level, new: Level) -> u128
        ensures { result ≡ change_mask_at self.now old new }
    {
        match to_x01(old) {
            Level::Zero => self.from_zero.at(new),
            Level::One => self.from_one.at(new),
            _ => self.from_x.at(new),
        }
    }
}
