//! Laws of what is read, as functions whose contracts they are.

ghost use Rattle.std.specs.Prelude.{ℕ, List, All};
ghost use Rattle.vital_as_read.specs.AsRead.{IsAsRead, IsUnitAsRead};
ghost use Rattle.vital_as_read.specs.Libraries.{IsCellOfLibrary, IsFromText};
ghost use Rattle.vital_names.specs.Sites.{Cell};
ghost use Rattle.vital_nodes.specs.declared.unit.Role.{Role};
ghost use Rattle.vital_nodes.specs.declared.unit.Units.{Units};
ghost use Rattle.vital_vhdl.specs.Outcomes.{IsUnitsOf};

use vital_nodes::walked_in_preorder;

/// Each entity and each architecture that `read_units` reads of a file is as read: a law, called for its clause.
pub fn units_are_as_read()
    ensures { (file : ℕ) (role : Role) (text : List ℕ) (room : ℕ) (read : Units)
        → IsUnitsOf file role text room read → All IsUnitAsRead read.units }
{
    walked_in_preorder();
}

/// Each cell of a library of which all files were read is as read: a law, called for its clause.
pub fn cells_are_as_read()
    ensures { (cell : Cell) → All IsFromText cell.files → IsCellOfLibrary cell → IsAsRead cell }
{
    units_are_as_read();
}
