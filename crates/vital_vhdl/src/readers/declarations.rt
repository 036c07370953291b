//! Reading declarations.

ghost use Rattle.std.specs.Prelude.{◌≡◌, ◌++◌, IfOk, Some, map};
ghost use Rattle.vital_shapes.specs.Declarations as spec;
ghost use Rattle.vital_vhdl.specs.Together.{earlier_object};
ghost use Rattle.vital_vhdl.specs.Reads.{Reads, adding};

use crate::cursor::Cursor;
use crate::readers::identifiers::{closing, identifiers, is_written};
use crate::readers::interfaces::{interfaces, sub};
use crate::readers::lists::{fold, items_of, pushed};
use crate::readers::outermost::{expression, name, optional_value};
use crate::shape_error::ShapeError;
use sqlite_items::Items;
use std::alloc::{AllocError, Global};
use vital_base::List;
use vital_nodes::{
    Alias, Component, Decl, Designator, EntityClass, Identifier, Object, ObjectClass, ObjectParts,
    Shared, Specification, Subtype,
};

#[tactic(auto, unfolding(vital_shapes::specs::Declarations::designator))]
fn designator(alloc: Global, cursor: &mut Cursor<'_>) -> Result<Designator, ShapeError>
    ensures { Reads (spec.designator cursor.old) result cursor.new }
{
    let alternative = cursor.choice();
    if alternative == 0 {
        return Ok(Designator::Identifier(cursor.identifier(alloc)?));
    }
    cursor.skip();
    match alternative {
        1 => Ok(Designator::All),
        _ => Ok(Designator::Others),
    }
}

#[tactic(auto, unfolding(vital_shapes::specs::Declarations::entity_class_of))]
fn entity_class_of(alternative: u16) -> EntityClass
    ensures { result ≡ spec.entity_class_of alternative }
{
    match alternative {
        0 => EntityClass::Entity,
        1 => EntityClass::Architecture,
        2 => EntityClass::Component,
        3 => EntityClass::Signal,
        _ => EntityClass::Label,
    }
}

#[tactic(auto, unfolding(vital_shapes::specs::Declarations::entity_class))]
fn entity_class(cursor: &mut Cursor<'_>) -> EntityClass
    ensures { spec.entity_class cursor.old ≡ Some (result, cursor.new) }
{
    let alternative = cursor.choice();
    cursor.skip();
    entity_class_of(alternative)
}

#[tactic(auto, unfolding(vital_shapes::specs::Declarations::specification))]
fn specification(
    alloc: Global,
    cursor: &mut Cursor<'_>,
    identifier: Identifier,
) -> Result<Decl, ShapeError>
    ensures { Reads (spec.specification identifier cursor.old) result cursor.new }
{
    cursor.skip();
    let designator = designator(alloc, cursor)?;
    cursor.skip();
    let class = entity_class(cursor);
    cursor.skip();
    let value = expression(alloc, cursor)?;
    cursor.skip();
    Ok(Decl::Specification(Specification {
        identifier,
        designator,
        class,
        value,
    }))
}

#[tactic(auto, unfolding(vital_shapes::specs::Declarations::attribute))]
fn attribute(alloc: Global, cursor: &mut Cursor<'_>) -> Result<Decl, ShapeError>
    ensures { Reads (spec.attribute cursor.old) result cursor.new }
{
    cursor.skip();
    let identifier = cursor.identifier(alloc)?;
    if cursor.choice() != 0 {
        return specification(alloc, cursor, identifier);
    }
    cursor.skip();
    let name = name(alloc, cursor)?;
    cursor.skip();
    Ok(Decl::Attribute(identifier, name))
}

#[tactic(auto, unfolding(vital_shapes::specs::Declarations::object_class_of))]
fn object_class_of(alternative: u16) -> ObjectClass
    ensures { result ≡ spec.object_class_of alternative }
{
    match alternative {
        1 => ObjectClass::Constant,
        2 => ObjectClass::Signal,
        _ => ObjectClass::Variable,
    }
}

/// Adds an object for each of the identifiers before the last one.
fn earlier_objects(
    mut found: List<Decl>,
    class: ObjectClass,
    identifiers: Vec<Identifier>,
    parts: &Shared<ObjectParts>,
) -> Result<List<Decl>, AllocError>
    ensures { IfOk result (λ all. all ≡ found ++ map (earlier_object class parts.now) identifiers.items) }
{
    for identifier in identifiers {
        let parts = parts.share()?;
        let object = Object {
            class,
            identifier,
            parts,
            is_last: false,
        };
        found = pushed(found, Decl::Object(object))?;
    }
    Ok(found)
}

/// Adds an object for each identifier.
fn each_object(
    found: List<Decl>,
    class: ObjectClass,
    identifiers: List<Identifier>,
    parts: Shared<ObjectParts>,
) -> Result<List<Decl>, AllocError>
    ensures { IfOk result (λ all. all ≡ found ++ spec.each_object class identifiers parts) }
{
    let mut identifiers = identifiers.into_vec();
    let Some(identifier) = identifiers.pop() else {
        return Ok(found);
    };
    let earlier = earlier_objects(found, class, identifiers, &parts)?;
    let last = Object {
        class,
        identifier,
        parts,
        is_last: true,
    };
    pushed(earlier, Decl::Object(last))
}

/// Adds the objects that are declared together.
#[tactic(auto, unfolding(vital_shapes::specs::Declarations::objects))]
fn objects(
    alloc: Global,
    cursor: &mut Cursor<'_>,
    class: ObjectClass,
    found: List<Decl>,
) -> Result<List<Decl>, ShapeError>
    ensures { Reads (adding found (spec.objects class cursor.old)) result cursor.new }
{
    cursor.skip();
    let identifiers = identifiers(alloc, cursor)?;
    cursor.skip();
    let subtype = sub(alloc, cursor)?;
    let value = optional_value(alloc, cursor)?;
    cursor.skip();
    let parts = Shared::new(alloc, ObjectParts { subtype, value })?;
    Ok(each_object(found, class, identifiers, parts)?)
}

#[tactic(auto, unfolding(vital_shapes::specs::Declarations::alias_subtype))]
fn alias_subtype(alloc: Global, cursor: &mut Cursor<'_>) -> Result<Option<Subtype>, ShapeError>
    ensures { Reads (spec.alias_subtype cursor.old) result cursor.new }
{
    if cursor.choice() == 0 {
        return Ok(None);
    }
    cursor.skip();
    Ok(Some(sub(alloc, cursor)?))
}

#[tactic(auto, unfolding(vital_shapes::specs::Declarations::alias))]
fn alias(alloc: Global, cursor: &mut Cursor<'_>) -> Result<Decl, ShapeError>
    ensures { Reads (spec.alias cursor.old) result cursor.new }
{
    cursor.skip();
    let identifier = cursor.identifier(alloc)?;
    let subtype = alias_subtype(alloc, cursor)?;
    cursor.skip();
    let target = name(alloc, cursor)?;
    cursor.skip();
    Ok(Decl::Alias(Alias {
        identifier,
        subtype,
        target,
    }))
}

#[tactic(auto, unfolding(vital_shapes::specs::Declarations::component))]
fn component(alloc: Global, cursor: &mut Cursor<'_>) -> Result<Decl, ShapeError>
    ensures { Reads (spec.component cursor.old) result cursor.new }
{
    cursor.skip();
    let identifier = cursor.identifier(alloc)?;
    is_written(cursor);
    let generics = interfaces(alloc, cursor)?;
    let ports = interfaces(alloc, cursor)?;
    cursor.skip();
    cursor.skip();
    closing(cursor);
    cursor.skip();
    Ok(Decl::Component(Component {
        identifier,
        generics,
        ports,
    }))
}

#[tactic(auto, unfolding(vital_shapes::specs::Declarations::single))]
fn single(alloc: Global, cursor: &mut Cursor<'_>, alternative: u16) -> Result<Decl, ShapeError>
    ensures { Reads (spec.single alternative cursor.old) result cursor.new }
{
    match alternative {
        0 => attribute(alloc, cursor),
        4 => alias(alloc, cursor),
        _ => component(alloc, cursor),
    }
}

/// Adds what a declaration declares.
#[tactic(auto, unfolding(vital_shapes::specs::Declarations::decl))]
fn decl(alloc: Global, cursor: &mut Cursor<'_>, found: List<Decl>) -> Result<List<Decl>, ShapeError>
    ensures { Reads (adding found (spec.decl cursor.old)) result cursor.new }
{
    let alternative = cursor.choice();
    if alternative > 0 && alternative < 4 {
        return objects(alloc, cursor, object_class_of(alternative), found);
    }
    let declaration = single(alloc, cursor, alternative)?;
    Ok(pushed(found, declaration)?)
}

/// All declarations that stand here.
pub(crate) fn declarations(
    alloc: Global,
    cursor: &mut Cursor<'_>,
) -> Result<Items<Decl>, ShapeError>
    ensures { Reads (spec.declarations cursor.old) result cursor.new }
{
    let found = fold(cursor, List::new(Vec::new(alloc)), |cursor, found, _| {
        decl(alloc, cursor, found)
    })?;
    Ok(items_of(found))
}
