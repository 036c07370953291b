//! The delays of a design with the entries of SDF files.

ghost use Rattle.std.specs.List.{AllZip};
ghost use Rattle.std.specs.Prelude.{◌≡◌, IfOk, Result, Ok, Err};
ghost use Rattle.vital_annotate.specs.Annotations.{annotated, annotated_instances};
ghost use Rattle.vital_annotate.specs.Instances.{cell_instances};
ghost use Rattle.vital_annotate.specs.Outcomes.{IsAnswer};
ghost use Rattle.vital_base.specs.declared.place.Place.{Place};
ghost use Rattle.vital_typed_cells.specs.Fits.{FitsCell};

use crate::annotate_error::AnnotateError;
use crate::annotations::Annotations;
use crate::cell_index::cell_indexes;
use crate::instances::CellInstances;
use crate::note::Note;
use crate::path_keys::numbers_by_key;
use crate::source::Source;
use crate::target::{entity_keys, target_keys, targets};
use std::alloc::Global;
use vital_base::{Corner, List};
use vital_netlist::Design;
use vital_sdf::SdfFile;
use vital_typed_cells::Values;

/// The delays of the timing generics of each instance of a cell, in the order of the instances, and the notes in order.
#[derive(Drop)]
pub struct Annotated {
    pub values: List<Values>,
    pub notes: List<Note>,
}

/// What files make of the delays of the instances of cells.
fn annotate_instances(
    alloc: Global,
    instances: &CellInstances<'_>,
    files: &[SdfFile],
    corner: Corner,
) -> Result<Annotated, AnnotateError>
    ensures answer { IsAnswer (annotated_instances instances.now corner files.now) result }
    ensures fit { IfOk result (λ a. AllZip (λ i delays. FitsCell i.cell delays) instances.now a.values) }
{
    let mut annotations = Annotations::new(alloc, instances.defaults(alloc)?);
    let mut buffer = Vec::new(alloc);
    let source = Source {
        alloc,
        instances,
        corner,
    };
    source.enter_files(files, &mut buffer, &mut annotations)?;
    let annotated = annotations.into_annotated(alloc)?;
    Ok(annotated)
}

/// The delays of a design's instances of cells: their defaults with the entries of SDF files, which are taken in order, with the
/// values of a corner; or the first entry with a result above 2^50 fs. Nothing becomes of the design (IEEE 1497).
pub fn annotate(
    alloc: Global,
    design: &Design<'_>,
    files: &List<SdfFile>,
    corner: Corner,
) -> Result<Annotated, AnnotateError>
    // What the entries make of the defaults.
    ensures annotated { IfOk result (λ a. annotated design.now corner files.now ≡ Ok (record { values = a.values; notes = a.notes })) }
    // A limit stands at the first entry with a result above it.
    ensures limit { (place : Place) → result ≡ Err (AnnotateError.Limit place) → annotated design.now corner files.now ≡ Err place }
    // The delays fit the cells of the instances.
    ensures fit { IfOk result (λ a. AllZip (λ i delays. FitsCell i.cell delays) (cell_instances design.now) a.values) }
{
    let cells = cell_indexes(alloc, design.cells())?;
    let found = targets(alloc, &*design, &cells)?;
    let path_keys = target_keys(alloc, design, &found)?;
    let paths = numbers_by_key(alloc, &path_keys)?;
    let entity_keys = entity_keys(alloc, &found)?;
    let entities = numbers_by_key(alloc, &entity_keys)?;
    let instances = CellInstances::new(&*design, &found, &paths, &entities);
    annotate_instances(alloc, &instances, files.as_slice(), corner)
}
