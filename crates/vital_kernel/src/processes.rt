//! The processes of a network.

ghost use Rattle.std.specs.Prelude.{◌≡◌, ◌^◌, ◌<◌, ◌≤◌, [], All, IfOk, IfSome, Some, length, map, slice_get};
ghost use Rattle.vital_machine.specs.Fits.{EffectIsOfCell, EndsInTime};
ghost use Rattle.vital_kernel.specs.DesignNetworks.{driver_count};
ghost use Rattle.vital_kernel.specs.Networks.{processes};
ghost use Rattle.vital_kernel.specs.Processes.{after, first_variables};
ghost use Rattle.vital_typed_cells.specs.Sound.{bit_count};

use crate::instances::Instances;
use crate::network::Network;
use crate::places::{Place, all_places};
use std::alloc::{AllocError, Global};
use std::marker::Model;
use vital_base::Time;
use vital_machine::Effect;
use vital_signals::Signals;

/// The processes of all instances of cells of a network, in number order, with their variables. Cells that are alike are made a program
/// once. All memory is taken at the start.
#[derive(Drop)]
pub struct Processes<'a> {
    network: &'a Network<'a>,
    places: Vec<Place>,
    instances: Instances,
}

impl<'a> Model for Processes<'a> {
    ghost use Rattle.std.specs.Coded.{codes};
    ghost use Rattle.vital_typed_cells.specs.contracts.typed_cell.TypedCell as tree;
    ghost use Rattle.vital_kernel.specs.Processes.{ProcessStates};

    ghost Value = { ProcessStates };

    ghost coded = { Prim.hlevel (codes, tree.the_row.coded) };

    ghost use Rattle.vital_kernel.specs.Instances.{states_in};
    ghost use Rattle.vital_kernel.specs.Kept.{AreKept};

    ghost view = { λ p. states_in p.network.now p.instances };

    ghost invariant = { λ p. AreKept p.network.now p.places.items p.instances };
}

impl<'a> Processes<'a> {
    /// The processes of a network before the initial run. It takes time and memory in proportion to the network, and fails as without memory
    /// where there are 2^31 or more processes, or more than 2^32 instances of cells, or where one has 2^32 or more bits or effects.
    pub fn new(alloc: Global, network: &'a Network<'a>) -> Result<Processes<'a>, AllocError>
        ensures first { IfOk result (λ p. p ≡ record { network = network.now; variables = map first_variables network.now.cells; effects = []; latest = 0 }) }
        ensures few { IfOk result (λ p. length (processes network.now) < 2 ^ 31) }
    {
        let cells = network.cells();
        let places = all_places(alloc, cells)?;
        let instances = Instances::new(alloc, cells)?;
        Ok(Processes {
            network,
            places,
            instances,
        })
    }

    /// How many there are.
    pub fn len(&self) -> u32
        ensures { result ≡ length (processes self.now.network) }
    {
        self.places.len() as u32
    }

    /// The number of the instance of a process among those of cells.
    pub fn instance(&self, process: u32) -> u32
        requires { process < length (processes self.now.network) }
        ensures { IfSome (slice_get (processes self.now.network) process) (λ p. p.instance ≡ result) }
    {
        self.places[process as usize].instance
    }

    /// Runs the process of a number at a time, which is not before that of the last one and at most 2^60 fs, where the signals are these: its
    /// statements are executed one after the other (IEEE 1076-1993, 9.2), and what they do is listed in place of what was. It takes no memory.
    pub fn run(&mut self, process: u32, now: Time, signals: &Signals)
        requires there { process < length (processes self.old.network) }
        requires later { self.old.latest ≤ now }
        requires now { now ≤ 2 ^ 60 }
        requires signals { length signals.now.signals ≡ length self.old.network.signals }
        ensures after { IfSome (slice_get (processes self.old.network) process) (λ p. self.new ≡ after now signals.now.signals p self.old) }
        ensures ends { All (EndsInTime now) self.new.effects }
        ensures numbers { IfSome (slice_get (processes self.old.network) process)
            (λ p. All (EffectIsOfCell (driver_count p.cell.tree) (bit_count p.cell.tree)) self.new.effects) }
    {
        let place = self.places[process as usize];
        let network = self.network;
        self.instances.run(place, network.cells(), now, signals);
    }

    /// How many effects the process that ran last had.
    pub fn effect_count(&self) -> u32
        ensures { result ≡ length self.now.effects }
    {
        self.instances.effect_count()
    }

    /// The effect of a number, counted from 0, of the process that ran last.
    pub fn effect(&self, number: u32) -> Effect
        requires { number < length self.now.effects }
        ensures { slice_get self.now.effects number ≡ Some result }
    {
        self.instances.effect(number)
    }
}
