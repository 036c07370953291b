//! Where the values of declarations are not of their types.

ghost use Rattle.std.specs.Prelude.{◌≡◌, ◌++◌, map, OnOk};
ghost use Rattle.std.specs.List.{flat_map};
ghost use Rattle.vital_expr.specs.Seen.{lent};
ghost use Rattle.vital_typed_declarations.specs.Declarations as spec;

use crate::asked_type::asked_of_object;
use crate::sited::{SitedDeclaration, sited_declarations};
use crate::value::read_value_if_given;
use std::alloc::{AllocError, Global};
use vital_base::Place;
use vital_declaration_clauses::Region;
use vital_expr::Reader;
use vital_names::{CellNames, CellUnit};
use vital_nodes::{Decl, Object};
use vital_operands::{Faults, Position};

/// Puts where the value of an object is not of its type at the end.
fn put_broken_object(
    reader: &Reader<'_>,
    object: &Object,
    broken: &mut Vec<Place>,
) -> Result<(), AllocError>
    ensures { OnOk result (broken.new.items ≡ broken.old.items ++ spec.broken_in_object (lent reader.now) object.now) }
{
    if !object.is_last {
        return Ok(());
    }
    let asked = asked_of_object(reader.position.library(), object);
    read_value_if_given(reader, asked, &object.parts.get().value, broken)?;
    Ok(())
}

/// Puts where the value of a declaration is not of its type at the end.
fn put_broken_declaration(
    reader: &Reader<'_>,
    declaration: &Decl,
    broken: &mut Vec<Place>,
) -> Result<(), AllocError>
    ensures { OnOk result (broken.new.items ≡ broken.old.items ++ spec.broken_in_declaration (lent reader.now) declaration.now) }
{
    match declaration {
        Decl::Object(object) => put_broken_object(reader, object, broken),
        _ => Ok(()),
    }
}

/// The same, of a declaration at its site.
fn put_broken_at<'a>(
    alloc: Global,
    names: &'a CellNames<'a>,
    faults: &'a Faults<'a>,
    declaration: &SitedDeclaration<'a, Decl>,
    broken: &mut Vec<Place>,
) -> Result<(), AllocError>
    ensures { OnOk result (broken.new.items ≡ broken.old.items ++ spec.broken_at names.now faults.now (spec.lent_sited declaration.now)) }
{
    let reader = Reader {
        alloc,
        position: Position::Value(names, declaration.site),
        faults,
    };
    put_broken_declaration(&reader, declaration.declaration, broken)
}

/// The same, of declarations at their sites.
fn put_broken_among<'a>(
    alloc: Global,
    names: &'a CellNames<'a>,
    faults: &'a Faults<'a>,
    declarations: &[SitedDeclaration<'a, Decl>],
    broken: &mut Vec<Place>,
) -> Result<(), AllocError>
    ensures { OnOk result (broken.new.items ≡ broken.old.items ++ flat_map (spec.broken_at names.now faults.now) (map spec.lent_sited declarations.now)) }
{
    for declaration in declarations {
        put_broken_at(alloc, names, faults, declaration, broken)?;
    }
    Ok(())
}

/// The same, of the declarations of a region.
fn put_broken_in_region<'a>(
    alloc: Global,
    names: &'a CellNames<'a>,
    faults: &'a Faults<'a>,
    region: &'a Region<'a>,
    broken: &mut Vec<Place>,
) -> Result<(), AllocError>
    ensures { OnOk result (broken.new.items ≡ broken.old.items ++ spec.broken_in_region names.now faults.now region.now) }
{
    let declarations = sited_declarations(
        alloc,
        CellUnit::Architecture,
        region.process(),
        region.declarations(),
    )?;
    put_broken_among(alloc, names, faults, &declarations, broken)
}

/// Puts where the values of the declarations of regions of a cell are not of their types at the end. It takes time in proportion to
/// the declarations.
pub fn put_broken_in_regions<'a>(
    alloc: Global,
    names: &'a CellNames<'a>,
    faults: &'a Faults<'a>,
    regions: &'a [Region<'a>],
    broken: &mut Vec<Place>,
) -> Result<(), AllocError>
    ensures { OnOk result (broken.new.items ≡ broken.old.items ++ flat_map (spec.broken_in_region names.now faults.now) regions.now) }
{
    for region in regions {
        put_broken_in_region(alloc, names, faults, region, broken)?;
    }
    Ok(())
}
