//! Laws of how the names of ports and timing generics are spelled, as functions whose contracts they are.

ghost use Rattle.std.specs.Prelude.{◌≡◌, true, false, All, None, Some};
ghost use Rattle.vital_level0.specs.Breaches.{IsFirst};
ghost use Rattle.vital_level0.specs.Clauses.{is_delay_type_of, is_linkage};
ghost use Rattle.vital_names.specs.Sites.{Cell};
ghost use Rattle.vital_typed_cells.specs.SpelledNames.{is_port_name, spelled};
ghost use Rattle.vital_typed_cells.specs.TypedDefaults.{HasTypedDefault};
ghost use Rattle.vital_timing.specs.Delays.{type_of};
ghost use Rattle.vital_typed_cells.specs.Typed.{typed};
ghost use Rattle.vital_uses.specs.Nodes.{sited_interface};

/// In a cell whose entity breaks nothing of Level 0, the names of the ports of its typed tree hold no underscore and are not extended, and
/// their modes are not linkage: a law, called for its clause.
pub fn ports_are_formed()
    ensures { (cell : Cell) → IsFirst cell.entity None → All (λ p. (is_port_name p.name ≡ true) × (is_linkage p.mode ≡ false)) (typed cell).ports }
{}

/// The name of each timing generic of a typed tree is spelled as its parts are. Where the entity of the cell breaks nothing of Level 0, and
/// the default of each generic that is a delay has its type, the defaults of the timing generics have types that their prefixes may have: a
/// law, called for its clauses.
pub fn timing_generics_are_formed()
    ensures spelled { (cell : Cell) → All (λ g. spelled (typed cell).ports g.name g.parts ≡ Some g.name) (typed cell).generics }
    ensures typed { (cell : Cell) → IsFirst cell.entity None → All (HasTypedDefault cell) (sited_interface cell.entity.generics)
        → All (λ g. is_delay_type_of g.parts.kind (type_of g.default) ≡ true) (typed cell).generics }
{}
