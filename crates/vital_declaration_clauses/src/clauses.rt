//! The clauses of Level 1 that speak of declarations alone.

ghost use Rattle.std.specs.Prelude.{◌≡◌, [], ◌∷◌, ◌++◌, IfOk, OnOk};
ghost use Rattle.vital_declaration_clauses.specs.Clauses as spec;

use crate::breaking::{DeclarationClause, broken};
use crate::region::{Region, own_region};
use std::alloc::{AllocError, Global};
use vital_base::Place;
use vital_declarations::{is_level, type_of};
use vital_names::{CellNames, LibraryNames};
use vital_nodes::Iface;

/// L1.2: the declarations of the architecture itself that are no attribute, constant, signal or alias of a level constant.
pub fn clause_2(alloc: Global, names: &CellNames<'_>) -> Result<Vec<Place>, AllocError>
    ensures { IfOk result (λ places. places.items ≡ spec.clause_2 names.now) }
{
    let own = own_region(alloc, names)?;
    broken(alloc, DeclarationClause::InArchitecture, names, &own)
}

/// L1.3: the constants of regions that Level 1 does not allow. Symbols that no column of a table may have are told elsewhere.
pub fn clause_3<'a>(
    alloc: Global,
    names: &CellNames<'a>,
    regions: &'a [Region<'a>],
) -> Result<Vec<Place>, AllocError>
    ensures { IfOk result (λ places. places.items ≡ spec.broken (spec.breaks_3 names.now) regions.now) }
{
    broken(alloc, DeclarationClause::OfConstants, names, regions)
}

/// L1.4: the signals of regions that are not of levels, or have another default than a level.
pub fn clause_4<'a>(
    alloc: Global,
    names: &CellNames<'a>,
    regions: &'a [Region<'a>],
) -> Result<Vec<Place>, AllocError>
    ensures { IfOk result (λ places. places.items ≡ spec.broken spec.breaks_4 regions.now) }
{
    broken(alloc, DeclarationClause::OfSignals, names, regions)
}

/// L1.9: the declarations of processes among regions that are no constant, variable or alias as Level 1 allows them.
pub fn clause_9<'a>(
    alloc: Global,
    names: &CellNames<'a>,
    regions: &'a [Region<'a>],
) -> Result<Vec<Place>, AllocError>
    ensures { IfOk result (λ places. places.items ≡ spec.broken (spec.breaks_9 names.now) regions.now) }
{
    broken(alloc, DeclarationClause::InProcess, names, regions)
}

/// The declarations of a region whose identifiers an earlier one has or are predeclared.
fn redeclared_in<'a>(
    alloc: Global,
    names: &CellNames<'a>,
    region: &'a Region<'a>,
) -> Result<Vec<Place>, AllocError>
    ensures { IfOk result (λ places. places.items ≡ spec.redeclared_in names.now region.now) }
{
    match region.process() {
        Some(process) => names.redeclared_in_process(alloc, process),
        None => names.redeclared_in_block(alloc, region.declarations()),
    }
}

/// L1.17: the identifiers of the entity and of regions that an earlier one seen from there has, or that are predeclared.
pub fn clause_17<'a>(
    alloc: Global,
    names: &CellNames<'a>,
    regions: &'a [Region<'a>],
) -> Result<Vec<Place>, AllocError>
    ensures { IfOk result (λ places. places.items ≡ spec.all_redeclared names.now regions.now) }
{
    let mut places = names.redeclared_in_entity(alloc)?;
    for region in regions {
        let more = redeclared_in(alloc, names, region)?;
        places.extend_from_slice(&more)?;
    }
    Ok(places)
}

/// Whether a port is not of the types STD_ULOGIC and STD_LOGIC.
fn breaks_18(library: &LibraryNames<'_>, port: &Iface) -> bool
    ensures { result ≡ spec.breaks_18 port.now }
{
    !is_level(type_of(library, &port.parts.get().subtype))
}

/// Puts the place of a port at the end if it is not of these types.
fn put_port(
    places: &mut Vec<Place>,
    library: &LibraryNames<'_>,
    port: &Iface,
) -> Result<(), AllocError>
    ensures { OnOk result (places.new.items ≡ places.old.items ++ spec.of_ports (port.now ∷ [])) }
{
    if breaks_18(library, port) {
        places.push(port.identifier.place)?;
    }
    Ok(())
}

/// L1.18: the ports that are not of the types STD_ULOGIC and STD_LOGIC.
pub fn clause_18(alloc: Global, names: &CellNames<'_>) -> Result<Vec<Place>, AllocError>
    ensures { IfOk result (λ places. places.items ≡ spec.clause_18 names.now) }
{
    let mut places = Vec::new(alloc);
    let ports = names.entity().ports.as_slice();
    for port in ports {
        put_port(&mut places, names.library(), port)?;
    }
    Ok(places)
}
