//! The instances of cells of a network, with what the variables of their processes hold.

ghost use Rattle.std.specs.Prelude.{◌≡◌, ◌^◌, ◌<◌, ◌≤◌, [], All, IfOk, IfSome, OnOk, length, map, slice_get, Some};
ghost use Rattle.vital_cell.specs.Programs.{StandsFor};
ghost use Rattle.vital_typed_cells.specs.Fits.{FitsCell};
ghost use Rattle.vital_kernel.specs.Networks.{NetProcess, lent_cell};
ghost use Rattle.vital_kernel.specs.Instances as spec;
ghost use Rattle.vital_kernel.specs.Places.{IsPlace, IsThere, place_of};
ghost use Rattle.vital_kernel.specs.Processes.{first_variables};
ghost use Rattle.vital_typed_cells.specs.Sound.{bit_count};

use crate::network::NetCell;
use crate::places::Place;
use crate::program::CellProgram;
use std::alloc::{AllocError, Global};
use vital_base::Time;
use vital_cell::compile;
use vital_machine::{Effect, Store};
use vital_signals::Signals;

/// The most bits of a cell.
const MOST_BITS: usize = 0xFFFF_FFFF;

/// An instance of a cell: the number of its program, and what the variables of its processes hold.
#[derive(Drop)]
pub(crate) struct Instance {
    program: usize,
    store: Store,
}

/// The instances of cells, in order. Those that are alike have one program.
#[derive(Drop)]
pub(crate) struct Instances {
    programs: Vec<CellProgram>,
    instances: Vec<Instance>,
    /// The number of the program of the process that ran last.
    last: usize,
    /// When it ran.
    latest: Time,
}

/// The program of a cell with delays. It fails as without memory where the cell has 2^32 or more bits.
fn program_of(alloc: Global, cell: &NetCell<'_>) -> Result<CellProgram, AllocError>
    requires fit { FitsCell cell.now.cell.now cell.now.values.now }
    requires one_each { length cell.now.wires.now ≡ bit_count cell.now.cell.now }
    ensures stands { IfOk result (λ p. StandsFor p.program cell.now.cell.now cell.now.values.now) }
    ensures none { IfOk result (λ p. p.effects ≡ []) }
{
    let bits = cell.wires.len();
    if bits > MOST_BITS {
        return Err(AllocError);
    }
    let program = compile(alloc, cell.cell, cell.values)?;
    CellProgram::new(alloc, program, bits as u32)
}

/// The number of the program of an instance: that of one before that is alike, or else of one that is put at the end.
fn program_number(
    alloc: Global,
    cell: &NetCell<'_>,
    instances: &[Instance],
    programs: &mut Vec<CellProgram>,
) -> Result<usize, AllocError>
    requires fit { FitsCell cell.now.cell.now cell.now.values.now }
    requires one_each { length cell.now.wires.now ≡ bit_count cell.now.cell.now }
    requires alike { IfSome (slice_get instances.now cell.now.alike) (λ other. spec.Stands programs.old.items other.program (lent_cell cell.now)) }
    ensures stands { IfOk result (λ number. spec.Stands programs.new.items number (lent_cell cell.now)) }
    ensures more { OnOk result (spec.HasMore programs.old.items programs.new.items) }
{
    match instances.get(cell.alike as usize) {
        Some(other) => Ok(other.program),
        None => {
            let number = programs.len();
            programs.push(program_of(alloc, cell)?)?;
            Ok(number)
        }
    }
}

/// Puts one more instance at the end.
fn put_instance(
    alloc: Global,
    cell: &NetCell<'_>,
    instances: &mut Vec<Instance>,
    programs: &mut Vec<CellProgram>,
) -> Result<(), AllocError>
    requires fit { FitsCell cell.now.cell.now cell.now.values.now }
    requires one_each { length cell.now.wires.now ≡ bit_count cell.now.cell.now }
    requires alike { IfSome (slice_get instances.old.items cell.now.alike) (λ other. spec.Stands programs.old.items other.program (lent_cell cell.now)) }
    ensures put { OnOk result (spec.HasOneMore programs.new.items (lent_cell cell.now) instances.old.items instances.new.items) }
    ensures more { OnOk result (spec.HasMore programs.old.items programs.new.items) }
{
    let program = program_number(alloc, cell, instances.as_slice(), programs)?;
    let store = programs[program].first_store(alloc)?;
    instances.push(Instance { program, store })?;
    Ok(())
}

impl Instances {
    /// The instances of these cells, of whose processes none ran.
    pub(crate) fn new(alloc: Global, cells: &[NetCell<'_>]) -> Result<Instances, AllocError>
        requires fit { All (λ c. FitsCell c.cell.now c.values.now) cells.now }
        requires one_each { All (λ c. length c.wires.now ≡ bit_count c.cell.now) cells.now }
        requires alike { All (λ c. IfSome (slice_get cells.now c.alike) (λ other. (other.cell.now ≡ c.cell.now) × (other.values.now ≡ c.values.now))) cells.now }
        ensures are { IfOk result (spec.AreInstances (map lent_cell cells.now)) }
        ensures first { IfOk result (λ s. spec.variables_in (map lent_cell cells.now) s.instances.items ≡ map first_variables (map lent_cell cells.now)) }
        ensures none { IfOk result (λ s. spec.effects_in s.programs.items s.last ≡ []) }
        ensures latest { IfOk result (λ s. s.latest ≡ 0) }
    {
        let mut programs = Vec::new(alloc);
        let mut instances = Vec::with_capacity(alloc, cells.len())?;
        for cell in cells {
            put_instance(alloc, cell, &mut instances, &mut programs)?;
        }
        Ok(Instances {
            programs,
            instances,
            last: 0,
            latest: 0,
        })
    }

    /// Runs the process at a place at a time, where the signals are these. The instances are those of these cells. It takes no memory.
    pub(crate) fn run(&mut self, place: Place, cells: &[NetCell<'_>], now: Time, signals: &Signals)
        requires are { spec.AreInstances (map lent_cell cells.now) self.old }
        requires wired { spec.AreWired (length signals.now.signals) (map lent_cell cells.now) }
        requires place { IsPlace (map lent_cell cells.now) place }
        requires later { self.old.latest ≤ now }
        requires now { now ≤ 2 ^ 60 }
        ensures are { spec.AreInstances (map lent_cell cells.now) self.new }
        ensures latest { self.new.latest ≡ now }
        ensures ran { (p : NetProcess) → IsThere (map lent_cell cells.now) p → place ≡ place_of p
            → spec.HasRun now signals.now.signals p (map lent_cell cells.now) self.old self.new }
    {
        let cell = &cells[place.instance as usize];
        let instance = &mut self.instances[place.instance as usize];
        let program = &mut self.programs[instance.program];
        program.run(place.number, now, cell.wires, signals, &mut instance.store);
        self.last = instance.program;
        self.latest = now;
    }

    /// How many effects the process that ran last had.
    pub(crate) fn effect_count(&self) -> u32
        ensures { result ≡ length (spec.effects_in self.now.programs.items self.now.last) }
    {
        match self.programs.get(self.last) {
            Some(program) => program.effect_count(),
            None => 0,
        }
    }

    /// The effect of a number, counted from 0, of the process that ran last.
    pub(crate) fn effect(&self, number: u32) -> Effect
        requires { number < length (spec.effects_in self.now.programs.items self.now.last) }
        ensures { slice_get (spec.effects_in self.now.programs.items self.now.last) number ≡ Some result }
    {
        self.programs[self.last].effect(number)
    }
}
