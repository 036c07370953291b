//! The instances of cells in a network.

ghost use Rattle.std.specs.Prelude.{◌≡◌, IfOk, length, map};
ghost use Rattle.vital_netlist.specs.Trees.{path_of};
ghost use Rattle.vital_kernel.specs.Alike.{AreAlike};
ghost use Rattle.vital_kernel.specs.DesignNetworks as spec;
ghost use Rattle.vital_kernel.specs.Networks.{lent_cell};
ghost use Rattle.vital_kernel.specs.Placed.{lent_placed, with_count};

use crate::alike::alike_of;
use crate::counts::added;
use crate::network::NetCell;
use crate::placed::{Placed, placed_cells};
use std::alloc::{AllocError, Global};
use vital_base::{List, Name};
use vital_netlist::Design;
use vital_typed_cells::Values;

/// An instance of a cell with these delays and this wiring, whose first driver has this number, and which is alike to the one of a number.
fn cell_of<'a>(
    alloc: Global,
    design: &Design<'_>,
    place: &Placed<'a>,
    values: &'a Values,
    wires: &'a List<usize>,
    first: u32,
    alike: u32,
) -> Result<NetCell<'a>, AllocError>
    ensures alike { IfOk result (λ cell. cell.alike ≡ alike) }
    ensures cell { IfOk result (λ cell. lent_cell cell ≡ record { path = path_of design.now place.now.number; tree = place.now.cell.now; delays = values.now; wires = wires.now; first_driver = first }) }
{
    Ok(NetCell {
        path: Name::new(design.path(alloc, place.number)?),
        cell: place.cell,
        values,
        wires: wires.as_slice(),
        first_driver: first,
        alike,
    })
}

/// These instances of cells with their delays and their wiring, whose first driver has this number, each alike to the one of a number.
fn cells_from<'a>(
    alloc: Global,
    design: &Design<'_>,
    first: u32,
    placed: &[Placed<'a>],
    values: &[&'a Values],
    wiring: &'a [List<usize>],
    alike: &[u32],
) -> Result<Vec<NetCell<'a>>, AllocError>
    requires placed { map lent_placed placed.now ≡ map with_count (spec.placed_cells design.now) }
    requires values { length values.now ≡ length placed.now }
    requires wiring { length wiring.now ≡ length placed.now }
    requires alike { length alike.now ≡ length placed.now }
    ensures trees { IfOk result (λ cells. map (λ c. c.cell.now) cells.items ≡ map (λ p. p.cell.now) placed.now) }
    ensures delays { IfOk result (λ cells. map (λ c. c.values.now) cells.items ≡ map (λ v. v.now) values.now) }
    ensures alike { IfOk result (λ cells. map (λ c. c.alike) cells.items ≡ alike.now) }
    ensures cells { IfOk result (λ cells. map lent_cell cells.items ≡ spec.cells_from design.now first (spec.placed_cells design.now) (map (λ v. v.now) values.now) wiring.now) }
{
    let mut next = first;
    let mut cells = Vec::new(alloc);
    for (k, place) in placed.iter().enumerate() {
        let cell = cell_of(alloc, design, place, values[k], &wiring[k], next, alike[k])?;
        cells.push(cell)?;
        next = added(next, place.drivers as usize)?;
    }
    Ok(cells)
}

/// The instances of cells of a design with their delays and their wiring, behind so many drivers. It takes time in proportion to the
/// instances with their names and to the statements of the cells.
pub fn cells_of<'a>(
    alloc: Global,
    design: &'a Design<'_>,
    first: u32,
    values: &[&'a Values],
    wiring: &'a [List<usize>],
) -> Result<Vec<NetCell<'a>>, AllocError>
    requires values { length values.now ≡ length (spec.placed_cells design.now) }
    requires wiring { length wiring.now ≡ length (spec.placed_cells design.now) }
    ensures alike { IfOk result (λ cells. AreAlike cells.items) }
    ensures cells { IfOk result (λ cells. map lent_cell cells.items ≡ spec.cells_from design.now first (spec.placed_cells design.now) (map (λ v. v.now) values.now) wiring.now) }
{
    let placed = placed_cells(alloc, design)?;
    let alike = alike_of(alloc, design.cells().len(), &placed, values)?;
    cells_from(alloc, design, first, &placed, values, wiring, &alike)
}
