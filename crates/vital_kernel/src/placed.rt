//! The instances of cells in a design.

ghost use Rattle.std.specs.Prelude.{◌≡◌, ◌++◌, [], IfOk, IfSome, OnOk, map, slice_get};
ghost use Rattle.std.specs.List.{cons_option};
ghost use Rattle.std.specs.Option.{option_and_then, option_map};
ghost use Rattle.vital_kernel.specs.DesignNetworks as spec;
ghost use Rattle.vital_kernel.specs.Placed.{HaveKinds, lent_placed, with_count};

use crate::counts::driver_counts;
use std::alloc::{AllocError, Global};
use vital_netlist::Design;
use vital_typed_cells::Checked;

/// An instance of a cell.
#[derive(Clone, Copy)]
pub struct Placed<'a> {
    /// Its number among all instances.
    pub number: usize,
    /// The number of its cell among the cells.
    pub kind: usize,
    pub cell: &'a Checked,
    /// How many drivers it has.
    pub drivers: u32,
}

/// The instance of a number, if it is one of a cell: of the cell of this number, where instances of the cells have so many drivers.
fn place_of<'a>(
    cells: &'a [Checked],
    counts: &[u32],
    number: usize,
    cell: Option<usize>,
) -> Option<Placed<'a>>
    requires { counts.now ≡ map spec.driver_count cells.now }
    ensures counted { option_map lent_placed result ≡ option_map with_count (option_map (λ tree. (number, tree)) (option_and_then (slice_get cells.now) cell)) }
    ensures kind { IfSome result (λ place. slice_get cells.now place.kind ≡ Some place.cell.now) }
{
    let kind = cell?;
    Some(Placed {
        number,
        kind,
        cell: cells.get(kind)?,
        drivers: *counts.get(kind)?,
    })
}

/// Puts an instance at the end, if there is one.
fn put<'a>(found: Option<Placed<'a>>, all: &mut Vec<Placed<'a>>) -> Result<(), AllocError>
    ensures { OnOk result (all.new.items ≡ all.old.items ++ cons_option found.entry []) }
{
    if let Some(one) = found {
        all.push(one)?;
    }
    Ok(())
}

/// The instances of cells. It takes time in proportion to the instances and the cells.
pub fn placed_cells<'a>(
    alloc: Global,
    design: &'a Design<'_>,
) -> Result<Vec<Placed<'a>>, AllocError>
    ensures counted { IfOk result (λ all. map lent_placed all.items ≡ map with_count (spec.placed_cells design.now)) }
    ensures kinds { IfOk result (λ all. HaveKinds design.now.cells all.items) }
{
    let cells = design.cells();
    let counts = driver_counts(alloc, cells)?;
    let instances = design.instances();
    let mut all = Vec::new(alloc);
    for (number, instance) in instances.iter().enumerate() {
        put(place_of(cells, &counts, number, instance.cell), &mut all)?;
    }
    Ok(all)
}
