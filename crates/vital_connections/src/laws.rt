//! Laws of associations, as functions whose contracts they are.

ghost use Rattle.std.specs.Prelude.{◌≡◌, ℕ, ◌<◌, List, length, All, Ok, Some};
ghost use Rattle.vital_associations.specs.Actuals as actuals;
ghost use Rattle.vital_associations.specs.Associations.{Association};
ghost use Rattle.vital_associations.specs.Formals.{shape_at};
ghost use Rattle.vital_associations.specs.PortMaps.{associated};
ghost use Rattle.vital_connections.specs.Connections.{AreApart, Bit, connection};
ghost use Rattle.vital_nodes.specs.declared.decl.Iface.{Iface};
ghost use Rattle.vital_nodes.specs.declared.expr.Item.{Item};
ghost use Rattle.vital_structure.specs.Shapes.{bits_of};
ghost use Rattle.vital_structure.specs.Signals.{UnitSignal};

/// The associations of an instance, where none is a fault, are of its ports, no two of them have a bit in common, and each bit that a bit of
/// a port is associated with is there: a law, called for its clauses.
pub fn associations_are_apart()
    ensures ports { (formals : List Iface) (signals : List UnitSignal) (items : List Item) (made : List Association) → associated formals signals items ≡ Ok made → All (λ a. a.port < length formals) made }
    ensures apart { (formals : List Iface) (signals : List UnitSignal) (items : List Item) (made : List Association) → associated formals signals items ≡ Ok made → AreApart (shape_at formals) made }
    ensures inside { (formals : List Iface) (signals : List UnitSignal) (items : List Item) (made : List Association) → associated formals signals items ≡ Ok made
        → (port bit object offset : ℕ) → connection (shape_at formals) (actuals.shape_at signals) port bit made ≡ Some (Bit object offset)
        → (object < length signals) × (offset < bits_of (actuals.shape_at signals object)) }
{}
