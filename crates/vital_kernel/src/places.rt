//! Where the processes of a network are.

ghost use Rattle.std.specs.Prelude.{◌≡◌, ◌^◌, ◌<◌, ◌++◌, IfOk, IfSome, OnOk, length, map};
ghost use Rattle.std.specs.List.{enumerate_from, flat_map, range_with_len};
ghost use Rattle.vital_cell.specs.Execution.{all_executed};
ghost use Rattle.vital_kernel.specs.Networks.{lent_cell, processes_of};
ghost use Rattle.vital_kernel.specs.Places.{place_in, place_of};

use crate::network::NetCell;
use std::alloc::{AllocError, Global};
use vital_typed_cells::Checked;

/// The most processes of a network.
const MOST_PROCESSES: usize = 0x7FFF_FFFF;

/// The highest number of an instance.
const MOST_INSTANCES: usize = 0xFFFF_FFFF;

/// Where a process is: the number of its instance among those of cells, and its own number in that.
#[derive(Clone, Copy)]
pub(crate) struct Place {
    pub(crate) instance: u32,
    pub(crate) number: u32,
}

/// How many processes a cell has, if that is a number: each call of VitalWireDelay is one too.
fn process_count(cell: &Checked) -> Option<usize>
    ensures { IfSome result (λ count. count ≡ length (all_executed cell.now)) }
{
    let tree = cell.cell();
    tree.processes.len().checked_add(tree.wires.len())
}

/// Puts the places of so many processes of an instance at the end.
fn put_places(instance: u32, count: u32, places: &mut Vec<Place>) -> Result<(), AllocError>
    ensures { OnOk result (places.new.items ≡ places.old.items ++ map (place_in instance) (range_with_len 0 count)) }
{
    for number in 0..count {
        places.push(Place { instance, number })?;
    }
    Ok(())
}

/// Puts the places of the processes of an instance at the end. There is no room for more than can be numbered.
fn put_instance(
    instance: usize,
    cell: &NetCell<'_>,
    places: &mut Vec<Place>,
) -> Result<(), AllocError>
    requires { length places.old.items < 2 ^ 31 }
    ensures placed { OnOk result (places.new.items ≡ places.old.items ++ map place_of (processes_of (instance, lent_cell cell.now))) }
    ensures few { OnOk result (length places.new.items < 2 ^ 31) }
{
    let Some(count) = process_count(cell.cell) else {
        return Err(AllocError);
    };
    if instance > MOST_INSTANCES || count > MOST_PROCESSES - places.len() {
        return Err(AllocError);
    }
    put_places(instance as u32, count as u32, places)
}

/// The places of all processes, in number order. It fails as without memory where there are 2^31 or more of them, or more than 2^32
/// instances.
pub(crate) fn all_places(alloc: Global, cells: &[NetCell<'_>]) -> Result<Vec<Place>, AllocError>
    ensures placed { IfOk result (λ places. places.items ≡ map place_of (flat_map processes_of (enumerate_from 0 (map lent_cell cells.now)))) }
    ensures few { IfOk result (λ places. length places.items < 2 ^ 31) }
{
    let mut places = Vec::new(alloc);
    for (instance, cell) in cells.iter().enumerate() {
        put_instance(instance, cell, &mut places)?;
    }
    Ok(places)
}
