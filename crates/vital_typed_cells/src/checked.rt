//! Cells that meet Level 1.

ghost use Rattle.std.specs.Prelude.{◌≡◌};
ghost use Rattle.vital_typed_cells.specs.Sound.{IsSound};

use crate::typed_cell::TypedCell;
use std::marker::Model;

/// A cell that meets Level 1 of VITAL (IEEE 1076.4). Its typed tree is sound: each name, number and index in it is there and means what is
/// asked of it, its names are identifiers and differ, and each of its times is at most 2^50 fs. Contracts see it as its typed tree.
#[derive(Drop)]
pub struct Checked {
    cell: TypedCell,
}

impl Model for Checked {
    ghost use Rattle.std.specs.Coded.{codes};
    ghost use Rattle.vital_typed_cells.specs.Sound.{IsSound};
    ghost use Rattle.vital_typed_cells.specs.contracts.typed_cell.TypedCell as tree;
    ghost use Rattle.vital_typed_cells.specs.declared.typed_cell.TypedCell.{TypedCell};

    ghost Value = { TypedCell };

    ghost coded = { Prim.hlevel (codes, tree.the_row.coded) };

    ghost view = { λ c. c.cell };

    ghost invariant = { λ c. IsSound c.cell };
}

impl Checked {
    /// A typed tree that is sound.
    pub fn new(cell: TypedCell) -> Checked
        requires { IsSound cell }
        ensures { result ≡ cell }
    {
        Checked { cell }
    }

    /// Its typed tree.
    pub fn cell(&self) -> &TypedCell
        ensures value { result.now ≡ self.now }
        ensures sound { IsSound self.now }
    {
        &self.cell
    }
}
