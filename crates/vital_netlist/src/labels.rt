//! The labels on the paths of instances.

ghost use Rattle.std.specs.Prelude.{◌≡◌, map, IfOk};
ghost use Rattle.std.specs.Option.{option_map};
ghost use Rattle.vital_netlist.specs.Designs as spec;

use crate::design_lists::{DesignInstance, Site};
use std::alloc::{AllocError, Global};

/// Where the instance of a number stands.
fn site_of<'a>(instances: &[DesignInstance<'a>], instance: usize) -> Option<Site<'a>>
    ensures { option_map spec.lent_site result ≡ spec.site_of (map spec.lent_instance instances.now) instance }
{
    match instances.get(instance) {
        Some(found) => found.site,
        None => None,
    }
}

/// The labels on the path of an instance, from the top on. It takes time in proportion to them.
pub fn labels_of<'a>(
    alloc: Global,
    instances: &[DesignInstance<'a>],
    instance: usize,
) -> Result<Vec<&'a [u8]>, AllocError>
    requires { spec.StandBehind (map spec.lent_instance instances.now) }
    ensures { IfOk result (λ labels. map (λ l. l.now) labels.items ≡ spec.labels_within instance (map spec.lent_instance instances.now) instance) }
{
    let mut labels = Vec::new(alloc);
    let mut site = site_of(instances, instance);
    while let Some(found) = site {
        labels.push(found.label)?;
        site = site_of(instances, found.instance);
    }
    labels.reverse();
    Ok(labels)
}
