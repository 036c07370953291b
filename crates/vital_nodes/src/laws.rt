//! What holds of the nodes of units.

ghost use Rattle.std.specs.Prelude.{◌≡◌, List, ◌∷◌, map};
ghost use Rattle.vital_nodes.specs.Nodes.{Node, parts_of};
ghost use Rattle.vital_nodes.specs.Walk.{folded, nodes_of, nodes_of_all};

/// The nodes of a node are itself, and then those of each of its parts: a law, called for its clause. With the parts of each
/// form of node it is the equation of that form.
pub fn walked_in_preorder()
    ensures { (v : Node) → nodes_of v ≡ v ∷ nodes_of_all (parts_of v) }
{}

/// The value that a step makes of a node is made of the node and of the values of its parts, in their order: a law, called for
/// its clause.
pub fn folded_upwards<R>()
    ensures { (step : Node → List R → R) (v : Node) → folded step v ≡ step v (map (folded step) (parts_of v)) }
{}
