//! Laws of the cells of a design, as functions whose contracts they are.

ghost use Rattle.std.specs.Prelude.{◌≡◌, All, Ok};
ghost use Rattle.vital_level1.specs.declared.level.CellLevel.TheVariants.{Level1};
ghost use Rattle.vital_level1.specs.Verdicts.{IsVerdict};
ghost use Rattle.vital_names.specs.Sites.{Cell};
ghost use Rattle.vital_structure.specs.Shapes.{Scalar, shape_of_port};

/// Each port of a cell of Level 1 is one bit: a law, called for its clause.
pub fn ports_of_cells_are_bits()
    ensures { (cell : Cell) → IsVerdict cell (Ok Level1) → All (λ port. shape_of_port port ≡ Scalar) cell.entity.ports }
{}
