//! Tables with a symbol that a column of a call may not have.

ghost use Rattle.std.specs.Prelude.{◌≡◌, [], ◌∷◌, ◌++◌, map, IfOk, OnOk};
ghost use Rattle.std.specs.BTreeMap.{get};
ghost use Rattle.std.specs.List.{filter_map, flat_map};
ghost use Rattle.std.specs.Option.{option_or};
ghost use Rattle.vital_base.specs.Places.{compare_places};
ghost use Rattle.vital_base.specs.declared.place.Place.{Place as Place'};
ghost use Rattle.vital_declaration_clauses.specs.Regions.{regions as regions'};
ghost use Rattle.vital_level1.specs.Kept as kept;
ghost use Rattle.vital_level1.specs.Uses as spec;
ghost use Rattle.vital_names.specs.Sites as sites;
ghost use Rattle.vital_operands.specs.Faults.{is_same_place};
ghost use Rattle.vital_operands.specs.Named.{where_holds};
ghost use Rattle.vital_typed_declarations.specs.Declarations.{lent_sited};

use crate::package_names::{NamedConstant, names_among};
use std::alloc::{AllocError, Global};
use std::collections::{BTreeMap, BTreeSet};
use vital_base::Place;
use vital_declaration_clauses::{Region, Scope};
use vital_names::{CellNames, CellUnit, Site};
use vital_nodes::{Decl, Object, is_constant};
use vital_package_constants::{is_wrong_in, is_wrong_package};
use vital_table_uses::{TableUse, UsedTable};
use vital_typed_declarations::{SitedDeclaration, sited_declarations};

/// The constants of a cell with their sites, by the places of their identifiers.
type CellConstants<'a> = BTreeMap<Place, (Site<'a>, &'a Object)>;

/// Puts a value at a place into a map, if there is none.
fn put_first<'a>(
    constants: &mut CellConstants<'a>,
    place: Place,
    constant: (Site<'a>, &'a Object),
) -> Result<(), AllocError>
    ensures { OnOk result ((q : Place') → get compare_places constants.new q ≡ option_or (get compare_places constants.old q) (where_holds (is_same_place place q) constant.entry)) }
{
    if !constants.contains_key(&place) {
        constants.insert(place, constant)?;
    }
    Ok(())
}

/// Puts an object into a map, if it is a constant and none is at its place.
fn put_object<'a>(
    constants: &mut CellConstants<'a>,
    site: Site<'a>,
    object: &'a Object,
) -> Result<(), AllocError>
    ensures { OnOk result ((q : Place') → kept.kept_at constants.new q ≡ option_or (kept.kept_at constants.old q) (spec.object_at q (sites.lent site.entry) object.now)) }
{
    if is_constant(object) {
        put_first(constants, object.identifier.place, (site, object))
    } else {
        Ok(())
    }
}

/// Puts a declaration into a map, if it is a constant and none is at its place.
fn put_constant<'a>(
    constants: &mut CellConstants<'a>,
    declaration: &SitedDeclaration<'a, Decl>,
) -> Result<(), AllocError>
    ensures { OnOk result ((q : Place') → kept.kept_at constants.new q ≡ option_or (kept.kept_at constants.old q) (spec.constant_at q (lent_sited declaration.now))) }
{
    match declaration.declaration {
        Decl::Object(object) => put_object(constants, declaration.site, object),
        _ => Ok(()),
    }
}

/// Puts the constants among declarations into a map.
fn put_constants<'a>(
    constants: &mut CellConstants<'a>,
    declarations: &[SitedDeclaration<'a, Decl>],
) -> Result<(), AllocError>
    ensures { OnOk result (kept.HasMoreConstants constants.new constants.old (map lent_sited declarations.now)) }
{
    for declaration in declarations {
        put_constant(constants, declaration)?;
    }
    Ok(())
}

/// Puts the constants that a region of a cell declares into a map.
fn put_constants_of<'a>(
    alloc: Global,
    constants: &mut CellConstants<'a>,
    region: &'a Region<'a>,
) -> Result<(), AllocError>
    ensures { OnOk result (kept.HasMoreConstants constants.new constants.old (spec.declared_in region.now)) }
{
    let declarations = sited_declarations(
        alloc,
        CellUnit::Architecture,
        region.process(),
        region.declarations(),
    )?;
    put_constants(constants, &declarations)
}

/// The constants that the regions of a cell declare.
fn constants_of<'a>(
    alloc: Global,
    regions: &'a [Region<'a>],
) -> Result<CellConstants<'a>, AllocError>
    ensures { IfOk result (λ constants. kept.HasConstants constants (flat_map spec.declared_in regions.now)) }
{
    let mut constants = BTreeMap::new(alloc);
    for region in regions {
        put_constants_of(alloc, &mut constants, region)?;
    }
    Ok(constants)
}

/// Whether a call makes the constant of a cell wrong whose identifier stands at this place.
fn is_wrong_constant<'a>(
    alloc: Global,
    names: &CellNames<'a>,
    constants: &CellConstants<'a>,
    used: &TableUse,
    place: Place,
) -> Result<bool, AllocError>
    requires { (q : Place') → kept.kept_at constants.now q ≡ spec.constant_of names.now q }
    ensures { IfOk result (λ is_wrong. is_wrong ≡ spec.is_wrong_at names.now used.now place) }
{
    match constants.get(&place) {
        Some((site, object)) => is_wrong_in(alloc, used, Scope::Cell(names, site), object),
        None => Ok(false),
    }
}

/// Puts the constant of a cell that a call makes wrong at the end, by its place, or that of a package into a set of their numbers.
fn put_wrong_use<'a>(
    alloc: Global,
    places: &mut Vec<Place>,
    numbers: &mut BTreeSet<usize>,
    names: &CellNames<'a>,
    constants: &CellConstants<'a>,
    used: &TableUse,
) -> Result<(), AllocError>
    requires { (q : Place') → kept.kept_at constants.now q ≡ spec.constant_of names.now q }
    ensures places { OnOk result (places.new.items ≡ places.old.items ++ filter_map (spec.wrong_use names.now) (used.now ∷ [])) }
    ensures numbers { OnOk result (kept.HasMoreWrong numbers.new numbers.old names.now.files (used.now ∷ [])) }
{
    match used.table {
        UsedTable::Cell(place) => {
            if is_wrong_constant(alloc, names, constants, used, place)? {
                places.push(place)?;
            }
        }
        UsedTable::Package(number) => {
            if is_wrong_package(alloc, names.library(), used, number)? {
                numbers.insert(number)?;
            }
        }
    }
    Ok(())
}

/// The same, of all calls.
fn put_wrong<'a>(
    alloc: Global,
    places: &mut Vec<Place>,
    numbers: &mut BTreeSet<usize>,
    names: &CellNames<'a>,
    constants: &CellConstants<'a>,
    uses: &[TableUse],
) -> Result<(), AllocError>
    requires { (q : Place') → kept.kept_at constants.now q ≡ spec.constant_of names.now q }
    ensures places { OnOk result (places.new.items ≡ places.old.items ++ filter_map (spec.wrong_use names.now) uses.now) }
    ensures numbers { OnOk result (kept.HasMoreWrong numbers.new numbers.old names.now.files uses.now) }
{
    for used in uses {
        put_wrong_use(alloc, places, numbers, names, constants, used)?;
    }
    Ok(())
}

/// Where a constant with a symbol that a column of a call may not have is declared, or named if it is one of a package.
pub fn wrong_symbols<'a>(
    alloc: Global,
    names: &'a CellNames<'a>,
    regions: &'a [Region<'a>],
    named: &[NamedConstant],
    uses: &[TableUse],
) -> Result<Vec<Place>, AllocError>
    requires { regions.now ≡ regions' names.now.arch }
    ensures { IfOk result (λ places. places.items ≡ spec.wrong_symbols names.now named.now uses.now) }
{
    let constants = constants_of(alloc, regions)?;
    let mut places = Vec::new(alloc);
    let mut numbers = BTreeSet::new(alloc);
    put_wrong(alloc, &mut places, &mut numbers, names, &constants, uses)?;
    let of_packages = names_among(alloc, named, &numbers)?;
    places.extend_from_slice(&of_packages)?;
    Ok(places)
}
