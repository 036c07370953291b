//! Laws of the typed trees of cells, as functions whose contracts they are.

ghost use Rattle.std.specs.Prelude.{[], All, Ok, Some};
ghost use Rattle.vital_typed_cells.specs.Processes.{process};
ghost use Rattle.vital_typed_cells.specs.Typed.{typed};
ghost use Rattle.vital_level1.specs.Verdicts.{IsVerdict};
ghost use Rattle.vital_level1.specs.declared.level.CellLevel.TheVariants.{Level1};
ghost use Rattle.vital_as_read.specs.AsRead.{IsAsRead};
ghost use Rattle.vital_names.specs.Sites.{Cell};
ghost use Rattle.vital_names.specs.declared.site.CellUnit.TheVariants.{Architecture};
ghost use Rattle.vital_nodes.specs.Nodes.{sequentials};
ghost use Rattle.vital_nodes.specs.Walk.{nodes_of_all};
ghost use Rattle.vital_operands.specs.Positions.{InStatement};
ghost use Rattle.vital_typed_cells.specs.Scopes.{in_process, scope_of};
ghost use Rattle.vital_typed_cells.specs.Sound.{IsSound};
ghost use Rattle.vital_typed_cells.specs.Positions.{HasNameAt};
ghost use Rattle.vital_uses.specs.Statements.{processes};

use crate::declared_names::{tree_names_are_formed, tree_names_differ};
use crate::kept_states::tree_states_differ;
use crate::numbers::{
    bits_are_there, processes_stand_before_wires, tree_wires_are_apart, wires_have_generics,
};
use crate::spelled_names::{ports_are_formed, timing_generics_are_formed};

/// In a cell that meets Level 1, and that is as cells are read from files, what each name in the statements of a process stands for is in
/// the scope of the process of its typed tree: a law, called for its clause.
pub fn scopes_are_whole()
    ensures { (cell : Cell) → IsAsRead cell → IsVerdict cell (Ok Level1)
        → All (λ p. All (HasNameAt (scope_of (in_process (typed cell) (process cell [] p))) (InStatement cell Architecture (Some p))) (nodes_of_all (sequentials p.statements)))
        (processes cell.arch) }
{}

/// The typed tree of a cell that meets Level 1, and that is as cells are read from files, is sound: a law, called for its clause.
pub fn typed_is_sound()
    ensures { (cell : Cell) → IsAsRead cell → IsVerdict cell (Ok Level1) → IsSound (typed cell) }
{
    tree_names_are_formed();
    tree_names_differ();
    ports_are_formed();
    timing_generics_are_formed();
    bits_are_there();
    tree_states_differ();
    wires_have_generics();
    tree_wires_are_apart();
    processes_stand_before_wires();
}
