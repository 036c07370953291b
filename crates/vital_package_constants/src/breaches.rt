//! The clauses that constants of packages break, themselves or through the constants of packages that they name.

ghost use Rattle.std.specs.Prelude.{◌≡◌, [], ◌∷◌, ◌++◌, None, Some, if◌then◌else◌, length, map, unwrap_or, IfOk, OnOk};
ghost use Rattle.std.specs.List.{filter_map, fold, list_any};
ghost use Rattle.vital_expr.specs.Seen.{lent};
ghost use Rattle.vital_limits.specs.ConstantLimits.{named_at as named_at'};
ghost use Rattle.vital_package_constants.specs.Breaches as spec;
ghost use Rattle.vital_package_constants.specs.Names as names;
ghost use Rattle.vital_nodes.specs.Seen.{seen};

use crate::names::{is_undeclared, is_wrong_call, nodes_of_constant};
use crate::tables::has_wrong_table;
use std::alloc::{AllocError, Global};
use vital_base::Place;
use vital_declaration_clauses::{Scope, is_good_constant};
use vital_expr::Reader;
use vital_limits::named_at;
use vital_names::LibraryNames;
use vital_nodes::{Node, Object};
use vital_operands::{Faults, Position};
use vital_typed_declarations::{asked_of_object, read_value_if_given};
use vital_uses::identifier_of_node;

/// Which clauses a cell breaks at each name of a constant of a package.
#[derive(Clone, Copy, PartialEq, Eq)]
pub struct ConstantBreaches {
    /// L1.3: it is no constant that Level 1 allows, or a call in its value makes a table wrong.
    pub clause_3: bool,
    /// L1.14: a call in it has wrong items.
    pub clause_14: bool,
    /// L1.15: its value is not of its type.
    pub clause_15: bool,
    /// L1.16: a name in it is neither declared nor predeclared.
    pub clause_16: bool,
}

impl ConstantBreaches {
    /// None is broken.
    fn none() -> ConstantBreaches
        ensures { result ≡ spec.no_breaches }
    {
        ConstantBreaches {
            clause_3: false,
            clause_14: false,
            clause_15: false,
            clause_16: false,
        }
    }

    /// Those that one or the other breaks.
    fn joined(self, other: ConstantBreaches) -> ConstantBreaches
        ensures { result ≡ spec.joined self other }
    {
        ConstantBreaches {
            clause_3: self.clause_3 || other.clause_3,
            clause_14: self.clause_14 || other.clause_14,
            clause_15: self.clause_15 || other.clause_15,
            clause_16: self.clause_16 || other.clause_16,
        }
    }

    /// Whether one is broken.
    pub fn breaks_any(self) -> bool
        ensures { result ≡ spec.breaks_any self }
    {
        self.clause_3 || self.clause_14 || self.clause_15 || self.clause_16
    }
}

/// Those of the constant of a number among those that are known.
pub fn breaches_at(known: &[ConstantBreaches], number: usize) -> ConstantBreaches
    ensures { result ≡ spec.breaches_at known.now number }
{
    match known.get(number) {
        Some(breaches) => *breaches,
        None => ConstantBreaches::none(),
    }
}

/// Whether the name at a node means a constant that breaks a clause.
fn names_broken(library: &LibraryNames<'_>, known: &[ConstantBreaches], node: Node<'_>) -> bool
    ensures { result ≡ spec.names_broken library.now known.now (seen node.entry) }
{
    match named_at(library, known.len(), node) {
        Some(number) => breaches_at(known, number).breaks_any(),
        None => false,
    }
}

/// Whether the name at a node is undeclared, a wrong call or the name of a constant that breaks a clause.
fn is_faulty(library: &LibraryNames<'_>, known: &[ConstantBreaches], node: Node<'_>) -> bool
    ensures { result ≡ spec.is_faulty library.now known.now (seen node.entry) }
{
    let number = known.len();
    is_undeclared(library, number, node)
        || is_wrong_call(library, number, node)
        || names_broken(library, known, node)
}

/// The place of a name that is one of these.
fn fault_at(library: &LibraryNames<'_>, known: &[ConstantBreaches], node: Node<'_>) -> Option<Place>
    ensures { result ≡ spec.fault_at library.now known.now (seen node.entry) }
{
    if !is_faulty(library, known, node) {
        return None;
    }
    match identifier_of_node(node) {
        Some(identifier) => Some(identifier.place),
        None => None,
    }
}

/// Puts the place of a name that is one of these at the end.
fn put_fault_at(
    places: &mut Vec<Place>,
    library: &LibraryNames<'_>,
    known: &[ConstantBreaches],
    node: Node<'_>,
) -> Result<(), AllocError>
    ensures { OnOk result (places.new.items ≡ places.old.items ++ filter_map (spec.fault_at library.now known.now) (seen node.entry ∷ [])) }
{
    if let Some(place) = fault_at(library, known, node) {
        places.push(place)?;
    }
    Ok(())
}

/// The places of the names among nodes that are one of these.
fn faults_in(
    alloc: Global,
    library: &LibraryNames<'_>,
    known: &[ConstantBreaches],
    nodes: &[Node<'_>],
) -> Result<Vec<Place>, AllocError>
    ensures { IfOk result (λ places. places.items ≡ spec.faults_in library.now known.now (map seen nodes.now)) }
{
    let mut places = Vec::new(alloc);
    for node in nodes {
        put_fault_at(&mut places, library, known, *node)?;
    }
    Ok(places)
}

/// Whether the value of a constant is not of its type.
fn is_wrong_value(
    reader: &Reader<'_>,
    library: &LibraryNames<'_>,
    object: &Object,
) -> Result<bool, AllocError>
    ensures { IfOk result (λ is_wrong. is_wrong ≡ spec.is_wrong_value (lent reader.now) object.now) }
{
    let mut broken = Vec::new(reader.alloc);
    let asked = asked_of_object(library, object);
    read_value_if_given(reader, asked, &object.parts.get().value, &mut broken)?;
    Ok(!broken.is_empty())
}

/// Whether a constant is none that Level 1 allows, or a call in it makes a table wrong. These are its nodes.
fn is_wrong_constant(
    reader: &Reader<'_>,
    library: &LibraryNames<'_>,
    number: usize,
    object: &Object,
    nodes: &[Node<'_>],
) -> Result<bool, AllocError>
    requires { map seen nodes.now ≡ names.nodes_of_constant object.now }
    ensures { IfOk result (λ is_wrong. is_wrong ≡ spec.is_wrong_constant library.now number (lent reader.now) object.now) }
{
    if is_good_constant(Scope::Package(library, number), object) {
        has_wrong_table(reader, library, nodes)
    } else {
        Ok(true)
    }
}

/// Whether one of nodes is a wrong call.
fn is_one_wrong_call(library: &LibraryNames<'_>, number: usize, nodes: &[Node<'_>]) -> bool
    ensures { result ≡ list_any (λ node. names.is_wrong_call library.now number (seen node)) nodes.now }
{
    nodes
        .iter()
        .any(|node| is_wrong_call(library, number, *node))
}

/// Whether a name among nodes is undeclared.
fn is_one_undeclared(library: &LibraryNames<'_>, number: usize, nodes: &[Node<'_>]) -> bool
    ensures { result ≡ list_any (λ node. names.is_undeclared library.now number (seen node)) nodes.now }
{
    nodes
        .iter()
        .any(|node| is_undeclared(library, number, *node))
}

/// Whether a call in a constant is wrong. These are its nodes.
fn has_wrong_call(
    library: &LibraryNames<'_>,
    number: usize,
    object: &Object,
    nodes: &[Node<'_>],
) -> bool
    requires { map seen nodes.now ≡ names.nodes_of_constant object.now }
    ensures { result ≡ list_any (names.is_wrong_call library.now number) (names.nodes_of_constant object.now) }
{
    is_one_wrong_call(library, number, nodes)
}

/// Whether a name in a constant is undeclared. These are its nodes.
fn has_undeclared(
    library: &LibraryNames<'_>,
    number: usize,
    object: &Object,
    nodes: &[Node<'_>],
) -> bool
    requires { map seen nodes.now ≡ names.nodes_of_constant object.now }
    ensures { result ≡ list_any (names.is_undeclared library.now number) (names.nodes_of_constant object.now) }
{
    is_one_undeclared(library, number, nodes)
}

/// Whether the type or a name in the declaration of a constant is undeclared. These are its nodes.
fn has_unknown_name(
    library: &LibraryNames<'_>,
    number: usize,
    object: &Object,
    nodes: &[Node<'_>],
) -> bool
    requires { map seen nodes.now ≡ names.nodes_of_constant object.now }
    ensures { result ≡ spec.has_unknown_name library.now number object.now }
{
    let declared = object.parts.get();
    library.type_named(&declared.subtype.name).is_none()
        || has_undeclared(library, number, object, nodes)
}

/// The clauses that the constant of a number breaks itself, where its names break other clauses at these faults. These are its nodes.
fn own_by(
    alloc: Global,
    library: &LibraryNames<'_>,
    number: usize,
    object: &Object,
    nodes: &[Node<'_>],
    faults: &Faults<'_>,
) -> Result<ConstantBreaches, AllocError>
    requires { map seen nodes.now ≡ names.nodes_of_constant object.now }
    ensures { IfOk result (λ breaches. breaches ≡ spec.own_by library.now number object.now faults.now) }
{
    let reader = Reader {
        alloc,
        position: Position::Package(library, number),
        faults,
    };
    Ok(ConstantBreaches {
        clause_3: is_wrong_constant(&reader, library, number, object, nodes)?,
        clause_14: has_wrong_call(library, number, object, nodes),
        clause_15: is_wrong_value(&reader, library, object)?,
        clause_16: has_unknown_name(library, number, object, nodes),
    })
}

/// The clauses that the constant behind those that are known breaks itself. These are its nodes.
fn own(
    alloc: Global,
    library: &LibraryNames<'_>,
    known: &[ConstantBreaches],
    object: &Object,
    nodes: &[Node<'_>],
) -> Result<ConstantBreaches, AllocError>
    requires { map seen nodes.now ≡ names.nodes_of_constant object.now }
    ensures { IfOk result (λ breaches. breaches ≡ spec.own library.now known.now object.now) }
{
    let places = faults_in(alloc, library, known, nodes)?;
    let faults = Faults::new(alloc, &places)?;
    own_by(alloc, library, known.len(), object, nodes, &faults)
}

/// Breaches joined with those of the constant that a node names.
fn joined_at(
    breaches: ConstantBreaches,
    library: &LibraryNames<'_>,
    known: &[ConstantBreaches],
    node: Node<'_>,
) -> ConstantBreaches
    ensures { result ≡ fold (λ b n. spec.joined b (spec.breaches_at known.now n)) breaches (filter_map (named_at' library.now (length known.now)) (seen node.entry ∷ [])) }
{
    match named_at(library, known.len(), node) {
        Some(number) => breaches.joined(breaches_at(known, number)),
        None => breaches,
    }
}

/// Breaches joined with those of the constants that nodes name.
fn joined_with(
    own: ConstantBreaches,
    library: &LibraryNames<'_>,
    known: &[ConstantBreaches],
    nodes: &[Node<'_>],
) -> ConstantBreaches
    ensures { result ≡ fold (λ b n. spec.joined b (spec.breaches_at known.now n)) own (filter_map (named_at' library.now (length known.now)) (map seen nodes.now)) }
{
    let mut breaches = own;
    for node in nodes {
        breaches = joined_at(breaches, library, known, *node);
    }
    breaches
}

/// The clauses that the constant behind those that are known breaks.
fn next_breaches(
    alloc: Global,
    library: &LibraryNames<'_>,
    known: &[ConstantBreaches],
    object: &Object,
) -> Result<ConstantBreaches, AllocError>
    ensures { IfOk result (λ breaches. breaches ≡ spec.next_breaches library.now known.now object.now) }
{
    let nodes = nodes_of_constant(alloc, object)?;
    let own = own(alloc, library, known, object, &nodes)?;
    Ok(joined_with(own, library, known, &nodes))
}

/// What a declaration breaks, if a constant behind this one is declared together with it.
fn still_begun(object: &Object, breaches: ConstantBreaches) -> Option<ConstantBreaches>
    ensures { result ≡ (if object.now.is_last then None else Some breaches) }
{
    if object.is_last { None } else { Some(breaches) }
}

/// What the declaration that has begun breaks, or else the constant behind those that are known.
fn breaches_of(
    alloc: Global,
    library: &LibraryNames<'_>,
    known: &[ConstantBreaches],
    begun: Option<ConstantBreaches>,
    object: &Object,
) -> Result<ConstantBreaches, AllocError>
    ensures { IfOk result (λ breaches. breaches ≡ unwrap_or begun (spec.next_breaches library.now known.now object.now)) }
{
    match begun {
        Some(breaches) => Ok(breaches),
        None => next_breaches(alloc, library, known, object),
    }
}

/// The clauses that each constant of the packages of a library breaks, in their order. It is made once for a library, and takes time
/// in proportion to its packages, and for each call of a table in them to at most 4,096 symbols of the table.
pub fn constant_breaches(
    alloc: Global,
    library: &LibraryNames<'_>,
) -> Result<Vec<ConstantBreaches>, AllocError>
    ensures { IfOk result (λ breaches. breaches.items ≡ spec.constant_breaches library.now) }
{
    let mut known = Vec::new(alloc);
    let mut begun = None;
    for object in library.constants() {
        let breaches = breaches_of(alloc, library, &known, begun, object)?;
        known.push(breaches)?;
        begun = still_begun(object, breaches);
    }
    Ok(known)
}
