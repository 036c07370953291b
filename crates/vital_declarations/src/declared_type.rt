//! The types that declarations name.

ghost use Rattle.std.specs.Prelude.{◌≡◌, is_some};
ghost use Rattle.std.specs.Option.{option_copied, option_map};
ghost use Rattle.vital_declarations.specs.Types as spec;
ghost use Rattle.vital_nodes.specs.Bounds.{items_at_end, shown};

use vital_names::{LibraryNames, TypeName};
use vital_nodes::{
    Choice, Item, LiteralBounds, Reference, Subtype, Suffix, literal_bounds, literal_integer,
};

/// A type of tables (IEEE 1076.4, package VITAL_Primitives).
#[derive(Clone, Copy, PartialEq, Eq)]
pub enum TableType {
    /// VitalTruthTableType.
    Truth,
    /// VitalStateTableType.
    State,
}

/// What a subtype is. Numbers in bounds may be of any length.
#[derive(Clone, Copy)]
pub enum DeclaredType<'a> {
    /// A predeclared type without an index and without a range.
    Plain(TypeName),
    /// STD_LOGIC_VECTOR with one pair of literal bounds.
    Vector(LiteralBounds<'a>),
    /// A type of tables with two pairs of literal bounds: for its rows, and for its columns.
    Table(TableType, LiteralBounds<'a>, LiteralBounds<'a>),
    /// None of these.
    Other,
}

/// The items in the parentheses at the end of a name.
fn items_of_name(name: &Reference) -> Option<&[Item]>
    ensures { option_copied result ≡ items_at_end name.now }
{
    match name.suffixes.as_slice().last() {
        Some(Suffix::Items(items)) => Some(items.as_slice()),
        _ => None,
    }
}

/// The type of a subtype without an index and without a range.
fn plain_type(library: &LibraryNames<'_>, subtype: &Subtype) -> Option<TypeName>
    ensures { result ≡ spec.plain_type subtype.now }
{
    if subtype.range.is_some() || items_of_name(&subtype.name).is_some() {
        return None;
    }
    library.type_named(&subtype.name)
}

/// The bounds of a vector.
fn vector_of<'a>(library: &LibraryNames<'_>, subtype: &'a Subtype) -> Option<DeclaredType<'a>>
    ensures { option_map spec.lent result ≡ spec.vector_of subtype.now }
{
    let bounds = literal_bounds(subtype)?;
    match library.type_named(&subtype.name) {
        Some(TypeName::StdLogicVector) => Some(DeclaredType::Vector(bounds)),
        _ => None,
    }
}

/// The literal bounds of an item that is a range by position.
fn bounds_of_item(item: &Item) -> Option<LiteralBounds<'_>>
    ensures { option_map shown result ≡ spec.bounds_of_item item.now }
{
    match item {
        Item::Positional(Choice::Range(range)) => {
            let range = range.get();
            let left = literal_integer(&range.left)?;
            let right = literal_integer(&range.right)?;
            Some(LiteralBounds {
                left,
                direction: range.direction,
                right,
            })
        }
        _ => None,
    }
}

/// Two pairs of literal bounds in parentheses.
fn two_bounds(items: &[Item]) -> Option<(LiteralBounds<'_>, LiteralBounds<'_>)>
    ensures { option_map (λ b. (shown b.0, shown b.1)) result ≡ spec.two_bounds items.now }
{
    match items {
        [rows, columns] => {
            let rows = bounds_of_item(rows)?;
            let columns = bounds_of_item(columns)?;
            Some((rows, columns))
        }
        _ => None,
    }
}

/// The two pairs of literal bounds of a subtype that is written without `range`.
fn table_bounds(subtype: &Subtype) -> Option<(LiteralBounds<'_>, LiteralBounds<'_>)>
    ensures { option_map (λ b. (shown b.0, shown b.1)) result ≡ spec.table_bounds subtype.now }
{
    match &subtype.range {
        None => two_bounds(items_of_name(&subtype.name)?),
        Some(_) => None,
    }
}

/// The type of tables that a type is.
fn table_type(type_name: TypeName) -> Option<TableType>
    ensures { result ≡ spec.table_type type_name }
{
    match type_name {
        TypeName::TruthTable => Some(TableType::Truth),
        TypeName::StateTable => Some(TableType::State),
        _ => None,
    }
}

/// The bounds of a table.
fn table_of<'a>(library: &LibraryNames<'_>, subtype: &'a Subtype) -> Option<DeclaredType<'a>>
    ensures { option_map spec.lent result ≡ spec.table_of subtype.now }
{
    let (rows, columns) = table_bounds(subtype)?;
    let table = table_type(library.type_named(&subtype.name)?)?;
    Some(DeclaredType::Table(table, rows, columns))
}

/// What a subtype with parentheses at the end of its name or with a range is.
fn bounded_type<'a>(library: &LibraryNames<'_>, subtype: &'a Subtype) -> Option<DeclaredType<'a>>
    ensures { option_map spec.lent result ≡ spec.bounded_type subtype.now }
{
    match vector_of(library, subtype) {
        Some(vector) => Some(vector),
        None => table_of(library, subtype),
    }
}

/// What a subtype is. The predeclared types are looked up by the last identifier of its name, whatever that means in the cell.
pub fn type_of<'a>(library: &LibraryNames<'_>, subtype: &'a Subtype) -> DeclaredType<'a>
    ensures { spec.lent result ≡ spec.type_of subtype.now }
{
    match plain_type(library, subtype) {
        Some(type_name) => DeclaredType::Plain(type_name),
        None => match bounded_type(library, subtype) {
            Some(bounded) => bounded,
            None => DeclaredType::Other,
        },
    }
}
