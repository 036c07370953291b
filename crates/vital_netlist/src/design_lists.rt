//! The parts of designs.

ghost use Rattle.std.specs.Prelude.{◌≡◌, ◌+◌, ◌^◌, ◌<◌, ◌==◌, map, slice_index, slice_set, IfOk};
ghost use Rattle.std.specs.List.{count_by, range_with_len};

use std::alloc::{AllocError, Global};
use vital_base::{List, Ports};
use vital_logic::Level;
use vital_naturals::Natural;
use vital_typed_cells::Checked;

/// Where an instance stands.
#[derive(Clone, Copy)]
pub struct Site<'a> {
    /// The number of the instance in which it stands, which is less than its own.
    pub instance: usize,
    /// Its label there.
    pub label: &'a [u8],
}

/// An instance of a design.
#[derive(Clone, Copy)]
pub struct DesignInstance<'a> {
    /// The top has none.
    pub site: Option<Site<'a>>,
    /// The name of its unit.
    pub unit: &'a [u8],
    /// The number of its cell. A netlist unit has none.
    pub cell: Option<usize>,
}

/// A signal of a design.
#[derive(Drop)]
pub struct DesignSignal<'a> {
    /// The number of the instance that owns it.
    pub instance: usize,
    /// The identifier of its port or signal there.
    pub identifier: &'a [u8],
    /// Its index if that is a vector.
    pub index: Option<Natural>,
    /// Whether its type is STD_LOGIC, which is resolved, and not STD_ULOGIC (IEEE 1164).
    pub is_resolved: bool,
    /// Its value as long as nothing drives it: the level that it is tied to, else its default, else 'U'.
    pub initial: Level,
}

/// A driver of a design (IEEE 1076-1993, 12.6.1).
#[derive(Clone, Copy, PartialEq, Eq)]
pub struct DesignDriver {
    /// The number of the signal that it drives.
    pub signal: usize,
    /// The level that it begins with: the default of the port or signal that it drives in its cell, or 'U'.
    pub initial: Level,
}

/// The parts of a design.
#[derive(Drop)]
pub struct DesignLists<'a> {
    pub instances: Vec<DesignInstance<'a>>,
    pub signals: Vec<DesignSignal<'a>>,
    pub drivers: Vec<DesignDriver>,
    pub ports: Ports,
    pub cells: &'a [Checked],
    pub wiring: Vec<List<usize>>,
}

/// Counts one more at a number, if it is one of these.
fn count_one(counts: &mut Vec<usize>, number: usize)
    requires { slice_index counts.old.items number < 2 ^ 63 }
    ensures { counts.new.items ≡ slice_set counts.old.items number (slice_index counts.old.items number + 1) }
{
    if number < counts.len() {
        counts[number] += 1;
    }
}

/// How many of these drivers each of so many signals has. It takes time in proportion to both.
pub fn driver_counts(
    alloc: Global,
    signals: usize,
    drivers: &[DesignDriver],
) -> Result<Vec<usize>, AllocError>
    ensures { IfOk result (λ counts. counts.items ≡ map (λ n. count_by (λ driver. driver.signal == n) drivers.now) (range_with_len 0 signals)) }
{
    let mut counts = vec![in alloc; 0; signals]?;
    for driver in drivers {
        count_one(&mut counts, driver.signal);
    }
    Ok(counts)
}
