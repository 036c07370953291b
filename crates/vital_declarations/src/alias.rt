//! What aliases name.

ghost use Rattle.std.specs.Prelude.{◌≡◌};
ghost use Rattle.std.specs.Option.{option_copied, option_map};
ghost use Rattle.vital_declarations.specs.Operands as spec;
ghost use Rattle.vital_declarations.specs.Types as types;
ghost use Rattle.vital_names.specs.Declarations as declarations;
ghost use Rattle.vital_names.specs.Meanings as meanings;
ghost use Rattle.vital_names.specs.Sites as sites;

use crate::declared_type::{DeclaredType, type_of};
use crate::range::offset;
use crate::variable::{VariableType, variable_type};
use vital_base::Name;
use vital_names::{CellNames, Declared, LibraryNames, Meaning, PackageConstant, Site, TypeName};
use vital_nodes::{
    Alias, Choice, Item, Object, ObjectClass, Reference, Subtype, Suffix, literal_integer,
};

/// What an alias names.
#[derive(Clone, Copy)]
pub enum AliasTarget<'a> {
    /// A variable of type STD_ULOGIC, STD_LOGIC or X01.
    Variable(&'a Object),
    /// An element of a vector variable, by its distance from the left bound.
    Element(&'a Object, usize),
    /// A constant of the cell of type STD_ULOGIC or STD_LOGIC.
    Constant(&'a Object),
    /// The same of a package.
    PackageConstant(PackageConstant<'a>),
    /// None of these.
    Other,
}

/// Whether a type is STD_ULOGIC or STD_LOGIC without an index and without a range.
pub fn is_level(declared_type: DeclaredType<'_>) -> bool
    ensures { result ≡ spec.is_level (types.lent declared_type.entry) }
{
    matches!(
        declared_type,
        DeclaredType::Plain(TypeName::StdUlogic | TypeName::StdLogic)
    )
}

/// Whether an object is of type STD_ULOGIC or STD_LOGIC.
pub fn is_of_levels(library: &LibraryNames<'_>, object: &Object) -> bool
    ensures { result ≡ spec.is_of_levels object.now }
{
    is_level(type_of(library, &object.parts.get().subtype))
}

/// A variable, where it is of type STD_ULOGIC, STD_LOGIC or X01.
fn variable_target<'a>(library: &LibraryNames<'_>, object: &'a Object) -> AliasTarget<'a>
    ensures { spec.lent_target result ≡ spec.variable_target object.now }
{
    match variable_type(library, &object.parts.get().subtype) {
        Some(VariableType::Level | VariableType::X01) => AliasTarget::Variable(object),
        _ => AliasTarget::Other,
    }
}

/// An object of the cell, where an alias of it may name it.
fn object_target<'a>(library: &LibraryNames<'_>, object: &'a Object) -> AliasTarget<'a>
    ensures { spec.lent_target result ≡ spec.object_target object.now.«class» object.now }
{
    match object.class {
        ObjectClass::Constant if is_of_levels(library, object) => AliasTarget::Constant(object),
        ObjectClass::Variable => variable_target(library, object),
        _ => AliasTarget::Other,
    }
}

/// What an identifier alone names.
fn whole_target<'a>(library: &LibraryNames<'_>, meaning: Meaning<'a>) -> AliasTarget<'a>
    ensures { spec.lent_target result ≡ spec.whole_target (meanings.lent meaning.entry) }
{
    match meaning {
        Meaning::Declared(Declared::Object(object)) => object_target(library, object),
        Meaning::Constant(constant) if is_of_levels(library, constant.object) => {
            AliasTarget::PackageConstant(constant)
        }
        _ => AliasTarget::Other,
    }
}

/// The one literal index in parentheses.
fn index_in(items: &[Item]) -> Option<&Name>
    ensures { option_copied result ≡ spec.index_in items.now }
{
    match items {
        [Item::Positional(Choice::Value(index))] => literal_integer(index),
        _ => None,
    }
}

/// The literal index that is all that stands behind an identifier.
pub fn literal_index(suffixes: &[Suffix]) -> Option<&Name>
    ensures { option_copied result ≡ spec.literal_index suffixes.now }
{
    match suffixes {
        [Suffix::Items(items)] => index_in(items.as_slice()),
        _ => None,
    }
}

/// How far an index of a variable is from the left bound, if it is a vector and the index is in its range.
pub fn offset_in(library: &LibraryNames<'_>, variable: &Object, index: &Name) -> Option<usize>
    ensures { result ≡ spec.offset_in variable.now index.now }
{
    match variable_type(library, &variable.parts.get().subtype) {
        Some(VariableType::Vector(bounds)) => offset(bounds, index),
        _ => None,
    }
}

/// What an object names with a literal index.
fn object_element<'a>(
    library: &LibraryNames<'_>,
    object: &'a Object,
    index: &Name,
) -> AliasTarget<'a>
    ensures { spec.lent_target result ≡ spec.object_element object.now.«class» object.now index.now }
{
    match object.class {
        ObjectClass::Variable => match offset_in(library, object, index) {
            Some(offset) => AliasTarget::Element(object, offset),
            None => AliasTarget::Other,
        },
        _ => AliasTarget::Other,
    }
}

/// What an identifier with a literal index names.
fn element_target<'a>(
    library: &LibraryNames<'_>,
    index: &Name,
    meaning: Meaning<'a>,
) -> AliasTarget<'a>
    ensures { spec.lent_target result ≡ spec.element_target index.now (meanings.lent meaning.entry) }
{
    match meaning {
        Meaning::Declared(Declared::Object(object)) => object_element(library, object, index),
        _ => AliasTarget::Other,
    }
}

/// What a name names as the target of an alias, where its identifier means this.
fn target_by<'a>(
    library: &LibraryNames<'_>,
    suffixes: &[Suffix],
    meaning: Meaning<'a>,
) -> AliasTarget<'a>
    ensures { spec.lent_target result ≡ spec.target_by suffixes.now (meanings.lent meaning.entry) }
{
    if suffixes.is_empty() {
        return whole_target(library, meaning);
    }
    match literal_index(suffixes) {
        Some(index) => element_target(library, index, meaning),
        None => AliasTarget::Other,
    }
}

/// What an alias that is seen from a site names: what its target means where the alias stands.
pub fn alias_target<'a>(names: &CellNames<'a>, site: &Site<'a>, alias: &Alias) -> AliasTarget<'a>
    ensures { spec.lent_target result ≡ spec.alias_target names.now (sites.lent site.now) alias.now }
{
    let own = Site {
        viewpoint: alias.identifier.place,
        ..*site
    };
    let target = &alias.target;
    match names.meaning(target.identifier.name.as_slice(), &own) {
        Some(meaning) => target_by(names.library(), target.suffixes.as_slice(), meaning),
        None => AliasTarget::Other,
    }
}
