//! Laws of typed values, as functions whose contracts they are.

ghost use Rattle.std.specs.Prelude.{◌≡◌, true, [], Option, IfSome};
ghost use Rattle.vital_expr.specs.Readings.{Context};
ghost use Rattle.vital_nodes.specs.declared.decl.Iface.{Iface};
ghost use Rattle.vital_nodes.specs.declared.expr.Expr.{Expr};
ghost use Rattle.vital_typed_cells.specs.Told.{IsTold};
ghost use Rattle.vital_typed_cells.specs.SoundValues.{HasNamesIn, HasTablesIn, ValueScope, is_sound_value, read_default};
ghost use Rattle.vital_typed_declarations.specs.Asked.{of_generic, of_port};
ghost use Rattle.vital_typed_declarations.specs.Declarations.{generic_value, port_value};
ghost use Rattle.vital_typed_declarations.specs.Values.{value_if_given};
ghost use Rattle.vital_typed_declarations.specs.declared.asked_type.AskedType.{AskedType};

/// Where what the names in a value stand for is in a scope, and so are the tables of the calls in it, what it is read as is sound in that
/// scope, whichever type is asked; and so are the defaults of generics, where words for their types are read by their texts, and of
/// ports: a law, called for its clauses.
pub fn read_values_are_sound()
    ensures values { (s : ValueScope) (c : Context) (a : AskedType) (o : Option Expr) → HasNamesIn s c.position o → HasTablesIn s.names c o
        → IfSome (value_if_given c a o).tree (λ v. is_sound_value s a v ≡ true) }
    ensures generics { (s : ValueScope) (c : Context) (i : Iface) → HasNamesIn s c.position (read_default i) → HasTablesIn s.names c (read_default i)
        → IfSome (generic_value c i).tree (λ v. is_sound_value s (of_generic i) v ≡ true) }
    ensures ports { (s : ValueScope) (c : Context) (i : Iface) → HasNamesIn s c.position i.parts.default → HasTablesIn s.names c i.parts.default
        → IfSome (port_value c i).tree (λ v. is_sound_value s (of_port i) v ≡ true) }
{}

/// Where no name breaks another clause, a value of which a type is asked has a tree, or a place at which it breaks the clause that speaks
/// of its form, and so have the defaults of generics and ports: a law, called for its clauses.
pub fn values_are_told()
    ensures values { (c : Context) (a : AskedType) (o : Option Expr) → c.faults ≡ [] → IsTold (value_if_given c a o) }
    ensures generics { (c : Context) (i : Iface) → c.faults ≡ [] → IsTold (generic_value c i) }
    ensures ports { (c : Context) (i : Iface) → c.faults ≡ [] → IsTold (port_value c i) }
{}
