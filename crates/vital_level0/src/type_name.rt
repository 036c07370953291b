//! The types that names name.

ghost use Rattle.std.specs.Prelude.{◌≡◌, [], ◌∷◌, codes, is_some};
ghost use Rattle.std.specs.Option.{option_map};
ghost use Rattle.vital_level0.specs.TypeNames as spec;
ghost use Rattle.vital_nodes.specs.Bounds.{items_at_end};

use vital_nodes::{Reference, Subtype, Suffix, last_identifier, literal_bounds};
use vital_timing::DelayType;

/// The last identifier of a type's name.
fn type_name(subtype: &Subtype) -> Option<&[u8]>
    ensures { option_map (λ name. name.now) result ≡ spec.type_name subtype.now }
{
    match last_identifier(&subtype.name) {
        Some(identifier) => Some(identifier.name.as_slice()),
        None => None,
    }
}

/// Whether a name ends in items in parentheses.
fn has_items_at_end(name: &Reference) -> bool
    ensures { result ≡ is_some (items_at_end name.now) }
{
    matches!(name.suffixes.as_slice().last(), Some(Suffix::Items(_)))
}

/// The name of a type without an index and without a range.
pub fn plain_type(subtype: &Subtype) -> Option<&[u8]>
    ensures { option_map (λ name. name.now) result ≡ spec.plain_type subtype.now }
{
    if subtype.range.is_some() || has_items_at_end(&subtype.name) {
        return None;
    }
    type_name(subtype)
}

/// Whether a subtype is Boolean.
pub fn is_boolean(subtype: &Subtype) -> bool
    ensures { result ≡ spec.is_plain (codes "boolean" ∷ []) subtype.now }
{
    match plain_type(subtype) {
        Some(name) => name == b"boolean".as_slice(),
        None => false,
    }
}

/// Whether a subtype is String.
pub fn is_text(subtype: &Subtype) -> bool
    ensures { result ≡ spec.is_plain (codes "string" ∷ []) subtype.now }
{
    match plain_type(subtype) {
        Some(name) => name == b"string".as_slice(),
        None => false,
    }
}

/// Whether a subtype is a vector of std_logic with one pair of literal bounds.
pub fn is_vector(subtype: &Subtype) -> bool
    ensures { result ≡ spec.is_vector subtype.now }
{
    if literal_bounds(subtype).is_none() {
        return false;
    }
    match type_name(subtype) {
        Some(name) => name == b"std_logic_vector".as_slice(),
        None => false,
    }
}

/// The type of delays that a subtype is.
pub fn delay_type(subtype: &Subtype) -> Option<DelayType>
    ensures { result ≡ spec.delay_type subtype.now }
{
    let name = plain_type(subtype)?;
    if name == b"vitaldelaytype".as_slice() {
        Some(DelayType::One)
    } else if name == b"vitaldelaytype01".as_slice() {
        Some(DelayType::Two)
    } else if name == b"vitaldelaytype01z".as_slice() {
        Some(DelayType::Six)
    } else {
        None
    }
}
