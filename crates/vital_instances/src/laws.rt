//! Laws of the instances of a design, as functions whose contracts they are.

ghost use Rattle.std.specs.Prelude.{◌≡◌, ◌≤◌, List, length};
ghost use Rattle.vital_instances.specs.declared.instance.Instance.{Instance};
ghost use Rattle.vital_instances.specs.Designs.{AreBehindParents, AreChildren, AreEntered, HaveChildren, HaveGoodCells, HaveGoodContents, HaveUnits, IsUnderTop};
ghost use Rattle.vital_instances.specs.Judges.{IsJudge, Judge};
ghost use Rattle.vital_nodes.specs.declared.unit.Units.{Units};

use vital_level0::one_first_breach;

/// The instances of a design: there are at most 16,384; the first alone is the top, each other one stands in its parent, and behind it; all
/// that are in each were found; the entity of each has an architecture, and is a cell of Level 1 where it is a cell; and what each netlist
/// unit holds has no fault. A law, called for its clauses.
pub fn instances_are_good()
    ensures few { (files : List Units) (found : List Instance) → AreEntered files found → length found ≤ 16384 }
    ensures top { (files : List Units) (found : List Instance) → AreEntered files found → IsUnderTop found }
    ensures parents { (files : List Units) (found : List Instance) → AreEntered files found → AreBehindParents found }
    ensures children { (files : List Units) (found : List Instance) → AreEntered files found → AreChildren files found }
    ensures all { (files : List Units) (found : List Instance) → AreEntered files found → HaveChildren files found }
    ensures units { (files : List Units) (found : List Instance) → AreEntered files found → HaveUnits files found }
    ensures cells { (files : List Units) (found : List Instance) → AreEntered files found → HaveGoodCells files found }
    ensures contents { (files : List Units) (found : List Instance) → AreEntered files found → HaveGoodContents files found }
{}

/// There is one judge of cells, who says of each what the clauses of VITAL say: a law, called for its clauses.
pub fn one_judge()
    ensures is { (judge : Judge) × IsJudge judge }
    ensures only { (a b : Judge) → IsJudge a → IsJudge b → a ≡ b }
{
    one_first_breach();
}
