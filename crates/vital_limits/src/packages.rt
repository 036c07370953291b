//! The limits that constants of packages pass, themselves or through the constants of packages that they name.

ghost use Rattle.std.specs.Prelude.{◌≡◌, [], ◌∷◌, None, Some, if◌then◌else◌, length, map, unwrap_or, IfOk};
ghost use Rattle.std.specs.List.{filter_map, fold, list_any};
ghost use Rattle.std.specs.Option.{option_and_then, option_map};
ghost use Rattle.vital_limits.specs.ConstantLimits as spec;
ghost use Rattle.vital_limits.specs.NodeLimits.{is_too_long_node};
ghost use Rattle.vital_names.specs.Meanings as meanings;
ghost use Rattle.vital_nodes.specs.Seen.{seen};

use crate::node_limits::{are_too_long, are_too_many, is_too_long_node, table_rows};
use std::alloc::{AllocError, Global};
use vital_names::{LibraryNames, Meaning};
use vital_nodes::{Node, Object, nodes_of_all, put_shared_parts};
use vital_uses::identifier_of_node;

/// Which limits of a cell that names it a constant of a package passes.
#[derive(Clone, Copy, PartialEq, Eq)]
pub struct ConstantLimits {
    /// A table has more than 128 rows.
    pub rows: bool,
    /// A row of a table has more than 32 items.
    pub columns: bool,
    /// A time literal is worth more than 2^50 fs.
    pub delay: bool,
}

impl ConstantLimits {
    /// None is passed.
    fn none() -> ConstantLimits
        ensures { result ≡ spec.no_limits }
    {
        ConstantLimits {
            rows: false,
            columns: false,
            delay: false,
        }
    }

    /// Those that one or the other passes.
    fn joined(self, other: ConstantLimits) -> ConstantLimits
        ensures { result ≡ spec.joined self other }
    {
        ConstantLimits {
            rows: self.rows || other.rows,
            columns: self.columns || other.columns,
            delay: self.delay || other.delay,
        }
    }
}

/// Whether a time literal among nodes is worth too much.
fn has_too_long(nodes: &[Node<'_>]) -> bool
    ensures { result ≡ list_any (λ node. is_too_long_node (seen node)) nodes.now }
{
    nodes.iter().any(|node| is_too_long_node(*node))
}

/// The limits of the text of a constant, whose nodes these are.
fn own(library: &LibraryNames<'_>, object: &Object, nodes: &[Node<'_>]) -> ConstantLimits
    requires { map seen nodes.now ≡ spec.nodes_of_constant object.now }
    ensures { result ≡ spec.own object.now }
{
    let rows = table_rows(library, object);
    ConstantLimits {
        rows: are_too_many(rows),
        columns: are_too_long(rows),
        delay: has_too_long(nodes),
    }
}

/// The constant of a package that a name means, by its number.
pub fn constant_meant(meaning: Option<Meaning<'_>>) -> Option<usize>
    ensures { result ≡ option_and_then spec.constant_meant (option_map meanings.lent meaning.entry) }
{
    match meaning {
        Some(Meaning::Constant(constant)) => Some(constant.number),
        _ => None,
    }
}

/// The constant that a name in the declaration of the constant of a number means.
fn constant_named(library: &LibraryNames<'_>, number: usize, name: &[u8]) -> Option<usize>
    ensures { result ≡ spec.constant_named library.now number name.now }
{
    constant_meant(library.meaning_in_value(name, number))
}

/// The constant that a node in the declaration of the constant of a number names.
pub fn named_at(library: &LibraryNames<'_>, number: usize, node: Node<'_>) -> Option<usize>
    ensures { result ≡ spec.named_at library.now number (seen node.entry) }
{
    match identifier_of_node(node) {
        Some(identifier) => constant_named(library, number, identifier.name.as_slice()),
        None => None,
    }
}

/// The limits of the constant of a number among those that are known.
pub fn limits_at(known: &[ConstantLimits], number: usize) -> ConstantLimits
    ensures { result ≡ spec.limits_at known.now number }
{
    match known.get(number) {
        Some(limits) => *limits,
        None => ConstantLimits::none(),
    }
}

/// Limits joined with those of the constant that a node names.
fn joined_at(
    limits: ConstantLimits,
    library: &LibraryNames<'_>,
    known: &[ConstantLimits],
    node: Node<'_>,
) -> ConstantLimits
    ensures { result ≡ fold (λ l n. spec.joined l (spec.limits_at known.now n)) limits (filter_map (spec.named_at library.now (length known.now)) (seen node.entry ∷ [])) }
{
    match named_at(library, known.len(), node) {
        Some(number) => limits.joined(limits_at(known, number)),
        None => limits,
    }
}

/// Limits joined with those of the constants that nodes name.
fn joined_with(
    own: ConstantLimits,
    library: &LibraryNames<'_>,
    known: &[ConstantLimits],
    nodes: &[Node<'_>],
) -> ConstantLimits
    ensures { result ≡ fold (λ l n. spec.joined l (spec.limits_at known.now n)) own (filter_map (spec.named_at library.now (length known.now)) (map seen nodes.now)) }
{
    let mut limits = own;
    for node in nodes {
        limits = joined_at(limits, library, known, *node);
    }
    limits
}

/// The limits of the constant that stands behind those whose limits are known.
fn next_limits(
    alloc: Global,
    library: &LibraryNames<'_>,
    known: &[ConstantLimits],
    object: &Object,
) -> Result<ConstantLimits, AllocError>
    ensures { IfOk result (λ limits. limits ≡ spec.next_limits library.now known.now object.now) }
{
    let mut parts = Vec::new(alloc);
    put_shared_parts(&mut parts, object)?;
    let nodes = nodes_of_all(alloc, parts)?;
    let own = own(library, object, &nodes);
    Ok(joined_with(own, library, known, &nodes))
}

/// What a declaration passes, if a constant behind this one is declared together with it.
fn still_begun(object: &Object, limits: ConstantLimits) -> Option<ConstantLimits>
    ensures { result ≡ (if object.now.is_last then None else Some limits) }
{
    if object.is_last { None } else { Some(limits) }
}

/// What the declaration that has begun passes, or else the constant behind those that are known.
fn limits_of(
    alloc: Global,
    library: &LibraryNames<'_>,
    known: &[ConstantLimits],
    begun: Option<ConstantLimits>,
    object: &Object,
) -> Result<ConstantLimits, AllocError>
    ensures { IfOk result (λ limits. limits ≡ unwrap_or begun (spec.next_limits library.now known.now object.now)) }
{
    match begun {
        Some(limits) => Ok(limits),
        None => next_limits(alloc, library, known, object),
    }
}

/// The limits that each constant of the packages of a library passes, in their order. It is made once for a library, and takes time
/// in proportion to its packages.
pub fn constant_limits(
    alloc: Global,
    library: &LibraryNames<'_>,
) -> Result<Vec<ConstantLimits>, AllocError>
    ensures { IfOk result (λ limits. limits.items ≡ spec.constant_limits library.now) }
{
    let mut known = Vec::new(alloc);
    let mut begun = None;
    for object in library.constants() {
        let limits = limits_of(alloc, library, &known, begun, object)?;
        known.push(limits)?;
        begun = still_begun(object, limits);
    }
    Ok(known)
}
