//! The defaults of generics that are words, and are read by their texts.

ghost use Rattle.std.specs.Prelude.{◌≡◌};
ghost use Rattle.std.specs.Str.{bytes_eq};
ghost use Rattle.vital_level0.specs.DefaultWords as spec;

use crate::type_name::{delay_type, is_boolean};
use vital_nodes::{Iface, Subtype, identifier_of};
use vital_timing::DelayType;

/// A word that the default of a generic is for its type. It names nothing, so that no declaration hides it.
#[derive(Clone, Copy, PartialEq, Eq)]
pub enum DefaultWord {
    /// TRUE or FALSE, of type Boolean.
    Boolean(bool),
    /// VitalZeroDelay, VitalZeroDelay01 or VitalZeroDelay01Z, of the type of delays that it goes with.
    ZeroDelay(DelayType),
}

/// The word that the default of a generic is, if it is one for its type.
pub fn default_word(generic: &Iface) -> Option<DefaultWord>
    ensures { result ≡ spec.default_word generic.now }
{
    let parts = generic.parts.get();
    let identifier = identifier_of(parts.default.as_ref()?)?;
    word_for(&parts.subtype, identifier.name.as_slice())
}

/// The word that a name is for a type, if it is one.
fn word_for(subtype: &Subtype, name: &[u8]) -> Option<DefaultWord>
    ensures { result ≡ spec.word_for subtype.now name.now }
{
    if is_boolean(subtype) {
        return boolean_word(name);
    }
    zero_delay_word(delay_type(subtype)?, name)
}

/// The word of type Boolean that a name is.
fn boolean_word(name: &[u8]) -> Option<DefaultWord>
    ensures { result ≡ spec.boolean_word name.now }
{
    if name == b"true".as_slice() {
        Some(DefaultWord::Boolean(true))
    } else if name == b"false".as_slice() {
        Some(DefaultWord::Boolean(false))
    } else {
        None
    }
}

/// The word for no delay of a type that a name is.
fn zero_delay_word(delay_type: DelayType, name: &[u8]) -> Option<DefaultWord>
    ensures { result ≡ spec.zero_delay_word delay_type name.now }
{
    if is_zero_delay(delay_type, name) {
        Some(DefaultWord::ZeroDelay(delay_type))
    } else {
        None
    }
}

/// Whether a name is the word for no delay of a type.
fn is_zero_delay(delay_type: DelayType, name: &[u8]) -> bool
    ensures { result ≡ bytes_eq name.now (spec.zero_delay delay_type) }
{
    match delay_type {
        DelayType::One => name == b"vitalzerodelay".as_slice(),
        DelayType::Two => name == b"vitalzerodelay01".as_slice(),
        DelayType::Six => name == b"vitalzerodelay01z".as_slice(),
    }
}
