//! The instances of a library under a top.

ghost use Rattle.std.specs.Prelude.{◌≡◌};
ghost use Rattle.vital_instances.specs.Faults.{IsAnswer};
ghost use Rattle.vital_instances.specs.Instances as spec;
ghost use Rattle.vital_instances.specs.Judges.{IsJudge, Judge};

use crate::entering::Entering;
use crate::entry::Entry;
use crate::fault::{Fault, InstancesError};
use crate::instance::Instance;
use crate::net_units::NetUnits;
use crate::open_units::OpenUnits;
use std::alloc::Global;
use vital_base::List;
use vital_level0::one_first_breach;
use vital_level1::Packages;
use vital_library::Library;

/// The instances of a library under a top, or the first fault, whoever judges its cells by the clauses.
fn instances_judged<'a>(
    alloc: Global,
    library: &'a Library,
    packages: &'a Packages<'a>,
    net_units: &'a NetUnits<'a>,
    top: &[u8],
) -> Result<List<Instance>, InstancesError<'a>>
    requires packages { packages.now ≡ library.now }
    requires net_units { net_units.now ≡ library.now }
    ensures { (judge : Judge) → IsJudge judge → IsAnswer (λ is. is) (spec.instances judge library.now top.now) result }
{
    let Some(number) = library.entity_named(top) else {
        return Err(InstancesError::Fault(Fault::NoTop));
    };
    let mut units = OpenUnits::new(alloc, library, packages, net_units)?;
    let mut entering = Entering::new(alloc);
    let top = Entry {
        name: &library.entity(number).identifier,
        entity: number,
        position: None,
    };
    entering.enter(alloc, &mut units, top)?;
    entering.finish(alloc, &mut units)?;
    Ok(List::new(entering.found))
}

/// The instances of a library under a top, an entity of any file, or the first fault. It takes time in proportion to the instances and to
/// the text of the cells that are entered.
pub fn instances<'a>(
    alloc: Global,
    library: &'a Library,
    packages: &'a Packages<'a>,
    net_units: &'a NetUnits<'a>,
    top: &[u8],
) -> Result<List<Instance>, InstancesError<'a>>
    requires packages { packages.now ≡ library.now }
    requires net_units { net_units.now ≡ library.now }
    ensures { spec.IsInstances library.now top.now result }
{
    one_first_breach();
    instances_judged(alloc, library, packages, net_units, top)
}
