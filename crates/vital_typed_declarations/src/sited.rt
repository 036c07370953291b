//! Declarations and the sites from which their parts are seen.

ghost use Rattle.std.specs.Prelude.{◌≡◌, map, IfOk};
ghost use Rattle.std.specs.Option.{option_copied};
ghost use Rattle.vital_typed_declarations.specs.Declarations.{lent_sited};
ghost use Rattle.vital_uses.specs.Sited.{beside, sited};

use std::alloc::{AllocError, Global};
use vital_base::Place;
use vital_names::{CellUnit, DeclaredTogether, ProcessNames, Site, viewpoints};

/// A declaration, a generic or a port, and the site from which its parts are seen.
#[derive(Clone, Copy)]
pub struct SitedDeclaration<'a, T> {
    pub site: Site<'a>,
    pub declaration: &'a T,
}

/// Declarations of a unit, or of a process of it, with their sites.
pub fn sited_declarations<'a, T: DeclaredTogether>(
    alloc: Global,
    unit: CellUnit,
    process: Option<&'a ProcessNames<'a>>,
    declarations: &'a [T],
) -> Result<Vec<SitedDeclaration<'a, T>>, AllocError>
    ensures { IfOk result (λ all. map lent_sited all.items ≡ sited T.HasPlace.place_is T.last_is unit (option_copied process.entry) declarations.now) }
{
    let viewpoints = viewpoints(alloc, declarations)?;
    declarations_beside(alloc, unit, process, &viewpoints, declarations)
}

/// Declarations, each of which is seen from the place that stands beside it.
fn declarations_beside<'a, T>(
    alloc: Global,
    unit: CellUnit,
    process: Option<&'a ProcessNames<'a>>,
    viewpoints: &[Place],
    declarations: &'a [T],
) -> Result<Vec<SitedDeclaration<'a, T>>, AllocError>
    ensures { IfOk result (λ all. map lent_sited all.items ≡ beside unit (option_copied process.entry) viewpoints.now declarations.now) }
{
    let mut all = Vec::new(alloc);
    let mut places = viewpoints;
    for declaration in declarations {
        let Some((viewpoint, others)) = places.split_first() else {
            return Ok(all);
        };
        let site = Site {
            unit,
            process,
            viewpoint: *viewpoint,
        };
        all.push(SitedDeclaration { site, declaration })?;
        places = others;
    }
    Ok(all)
}
