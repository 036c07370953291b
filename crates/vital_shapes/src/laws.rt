//! Laws of shapes, as functions whose contracts they are.

ghost use Rattle.std.specs.Prelude.{◌≡◌, ℕ, List, [], Some, All, AllPairs};
ghost use Rattle.vital_grammar.specs.Grammar.{grammar};
ghost use Rattle.vital_lex.specs.declared.token_list.Token.{Token};
ghost use Rattle.vital_ll.specs.Sentence.{IsTreeOf};
ghost use Rattle.vital_ll.specs.declared.derivation.Step.{Step};
ghost use Rattle.vital_nodes.specs.declared.unit.Unit.{Unit as Unit'};
ghost use Rattle.vital_shapes.specs.Reading.{kinds_of};
ghost use Rattle.vital_shapes.specs.Shapes.{file_units, shape};
ghost use Rattle.vital_shapes.specs.Standing.{IsAtToken, IsNotAfter, StartsRise, nodes_of_units, StandAtTokens, PlacesRise, places_of_units};
ghost use Rattle.vital_shapes.specs.Taken.{NamesTaken, ExpressionsTaken, NestedItemsTaken, NestedExpressionsTaken, InterfacesTaken, DeclarationsTaken, StatementsTaken, NestedStatementsTaken, UnitsTaken};

/// The reader of each rule of the grammar takes all that the rule derives and leaves what stands behind it, and meets an identifier
/// wherever it reads one. What may be nested does so with as many levels as there are steps, or more: a law, called for its clauses.
pub fn rules_are_taken()
    ensures names { NamesTaken }
    ensures expressions { ExpressionsTaken }
    ensures nested_items { NestedItemsTaken }
    ensures nested_expressions { NestedExpressionsTaken }
    ensures interfaces { InterfacesTaken }
    ensures declarations { DeclarationsTaken }
    ensures statements { StatementsTaken }
    ensures nested_statements { NestedStatementsTaken }
    ensures units { UnitsTaken }
{}

/// By the tree of a file's tokens the file's reader meets an identifier wherever it reads one, and leaves no step and no token: a
/// law, called for its clauses.
pub fn file_is_read()
    ensures shaped { (file : ℕ) (text : List ℕ) (tokens : List Token) (tree : List Step)
        → IsTreeOf grammar (kinds_of tokens) tree
        → (units : List Unit') × (shape file text tokens tree ≡ Some units) }
    ensures taken_whole { (file : ℕ) (text : List ℕ) (tokens : List Token) (tree : List Step) (units : List Unit')
        → IsTreeOf grammar (kinds_of tokens) tree
        → shape file text tokens tree ≡ Some units
        → file_units (record { steps = tree; tokens = tokens; text = text; file = file })
        ≡ Some (units, record { steps = []; tokens = []; text = text; file = file }) }
{}

/// By the tree of a file's tokens each node of the units stands at a token of the file; and where no token starts after a later one,
/// as in a lexed text, no node stands after a later one in preorder, unit after unit. The same of where the units begin, the
/// identifiers in their heads, and their nodes together: a law, called for its clauses.
pub fn nodes_stand()
    ensures at_tokens { (file : ℕ) (text : List ℕ) (tokens : List Token) (tree : List Step) (units : List Unit')
        → IsTreeOf grammar (kinds_of tokens) tree
        → shape file text tokens tree ≡ Some units
        → StandAtTokens file text tokens (nodes_of_units units) }
    ensures in_order { (file : ℕ) (text : List ℕ) (tokens : List Token) (tree : List Step) (units : List Unit')
        → IsTreeOf grammar (kinds_of tokens) tree
        → shape file text tokens tree ≡ Some units
        → StartsRise tokens
        → PlacesRise (nodes_of_units units) }
    ensures units_at_tokens { (file : ℕ) (text : List ℕ) (tokens : List Token) (tree : List Step) (units : List Unit')
        → IsTreeOf grammar (kinds_of tokens) tree
        → shape file text tokens tree ≡ Some units
        → All (IsAtToken file text tokens) (places_of_units units) }
    ensures units_in_order { (file : ℕ) (text : List ℕ) (tokens : List Token) (tree : List Step) (units : List Unit')
        → IsTreeOf grammar (kinds_of tokens) tree
        → shape file text tokens tree ≡ Some units
        → StartsRise tokens
        → AllPairs IsNotAfter (places_of_units units) }
{
    vital_nodes::walked_in_preorder();
}
