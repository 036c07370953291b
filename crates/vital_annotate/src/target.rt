//! The instances of cells of a design.

ghost use Rattle.std.specs.Prelude.{◌≡◌, ◌++◌, map, IfOk, OnOk};
ghost use Rattle.std.specs.Option.{option_to_list};
ghost use Rattle.vital_annotate.specs.Indexes.{found};
ghost use Rattle.vital_annotate.specs.Instances.{cell_instance, cell_instances};
ghost use Rattle.vital_annotate.specs.PathKeys as keys;
ghost use Rattle.vital_netlist.specs.Designs.{Design as Design', labels, lent_instance};

use crate::cell_index::CellIndex;
use crate::path_keys::{label_key, labels_key};
use std::alloc::{AllocError, Global};
use vital_netlist::{Design, DesignInstance};

/// An instance of a cell.
#[derive(Clone, Copy)]
pub struct Target<'a> {
    /// Its number among all instances of the design.
    pub instance: usize,
    /// The name of its entity.
    pub entity: &'a [u8],
    pub cell: &'a CellIndex<'a>,
}

/// Puts an instance of a design with these cells at the end if it is one of a cell.
fn put_target<'a>(
    targets: &mut Vec<Target<'a>>,
    cells: &'a [CellIndex<'a>],
    number: usize,
    instance: &DesignInstance<'a>,
) -> Result<(), AllocError>
    ensures { OnOk result ((d : Design') → cells.now ≡ d.cells → map (found d) targets.new.items ≡ map (found d) targets.old.items ++ option_to_list (cell_instance d (number, lent_instance instance.now))) }
{
    let Some(cell) = instance.cell else {
        return Ok(());
    };
    let Some(cell) = cells.get(cell) else {
        return Ok(());
    };
    targets.push(Target {
        instance: number,
        entity: instance.unit,
        cell,
    })?;
    Ok(())
}

/// The instances of cells, in the order of the design's instances.
pub fn targets<'a>(
    alloc: Global,
    design: &Design<'a>,
    cells: &'a [CellIndex<'a>],
) -> Result<Vec<Target<'a>>, AllocError>
    requires { cells.now ≡ design.now.cells }
    ensures { IfOk result (λ targets. map (found design.now) targets.items ≡ cell_instances design.now) }
{
    let mut targets = Vec::new(alloc);
    let instances = design.instances();
    for (number, instance) in instances.iter().enumerate() {
        put_target(&mut targets, cells, number, instance)?;
    }
    Ok(targets)
}

/// The keys of their paths.
pub fn target_keys(
    alloc: Global,
    design: &Design<'_>,
    targets: &[Target<'_>],
) -> Result<Vec<Vec<u8>>, AllocError>
    ensures { IfOk result (λ ks. map (λ k. k.items) ks.items ≡ map (λ t. keys.labels_key (labels design.now t.instance)) targets.now) }
{
    let mut found = Vec::new(alloc);
    for target in targets {
        let labels = design.labels(alloc, target.instance)?;
        found.push(labels_key(alloc, &labels)?)?;
    }
    Ok(found)
}

/// The keys of their entities.
pub fn entity_keys(alloc: Global, targets: &[Target<'_>]) -> Result<Vec<Vec<u8>>, AllocError>
    ensures { IfOk result (λ ks. map (λ k. k.items) ks.items ≡ map (λ t. keys.label_key t.entity.now) targets.now) }
{
    let mut found = Vec::new(alloc);
    for target in targets {
        found.push(label_key(alloc, target.entity)?)?;
    }
    Ok(found)
}
