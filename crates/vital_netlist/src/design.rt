//! Designs: what is left of a library under a top for printing and for simulation.

ghost use Rattle.std.specs.Prelude.{◌≡◌, ◌^◌, ◌<◌, length, map, IfOk};
ghost use Rattle.std.specs.List.{range_with_len};
ghost use Rattle.vital_netlist.specs.Designs as spec;
ghost use Rattle.vital_netlist.specs.Soundness.{IsSoundDesign};
ghost use Rattle.vital_netlist.specs.Trees as trees;

use crate::design_lists::{DesignDriver, DesignInstance, DesignLists, DesignSignal, driver_counts};
use crate::labels::labels_of;
use crate::names::{put_bit, put_dots, put_path};
use std::alloc::{AllocError, Global};
use std::marker::Model;
use vital_base::{List, Ports};
use vital_typed_cells::Checked;

/// A library elaborated under a top (IEEE 1076-1993, clause 12). It is sound: its cells are, each number in it is there, each name is an
/// identifier, each instance of a cell is wired, and the drivers are those of these instances. Contracts see it as the lists of its parts.
#[derive(Drop)]
pub struct Design<'a> {
    instances: Vec<DesignInstance<'a>>,
    signals: Vec<DesignSignal<'a>>,
    drivers: Vec<DesignDriver>,
    ports: Ports,
    cells: &'a [Checked],
    wiring: Vec<List<usize>>,
}

impl<'a> Model for Design<'a> {
    ghost use Rattle.std.specs.Prelude.{map};
    ghost use Rattle.std.specs.Coded.{codes};
    ghost use Rattle.vital_base.specs.contracts.ports.PortBit as port_bit;
    ghost use Rattle.vital_logic.specs.contracts.level.Level as level;
    ghost use Rattle.vital_netlist.specs.contracts.design_lists.DesignDriver as driver;
    ghost use Rattle.vital_netlist.specs.Designs.{Design as Design', lent_instance, lent_signal};
    ghost use Rattle.vital_netlist.specs.Soundness.{IsSoundDesign};
    ghost use Rattle.vital_typed_cells.specs.contracts.typed_cell.TypedCell as tree;

    ghost Value = { Design' };

    ghost coded = { Prim.hlevel (codes, driver.the_row.coded, level.the_row.coded, port_bit.the_row.coded, tree.the_row.coded) };

    ghost view = { λ d. record { instances = map lent_instance d.instances.items; signals = map lent_signal d.signals.items; drivers = d.drivers.items; ports = d.ports; cells = d.cells.now; wiring = d.wiring.items } };

    ghost invariant = { λ d. IsSoundDesign (record { instances = map lent_instance d.instances.items; signals = map lent_signal d.signals.items; drivers = d.drivers.items; ports = d.ports; cells = d.cells.now; wiring = d.wiring.items }) };
}

impl<'a> Design<'a> {
    /// The design of these parts, which are sound.
    pub fn new(lists: DesignLists<'a>) -> Design<'a>
        requires { IsSoundDesign (spec.lent_lists lists) }
        ensures { result ≡ spec.lent_lists lists.entry }
    {
        let DesignLists {
            instances,
            signals,
            drivers,
            ports,
            cells,
            wiring,
        } = lists;
        Design {
            instances,
            signals,
            drivers,
            ports,
            cells,
            wiring,
        }
    }

    /// The instances, in preorder. The top is the first one.
    pub fn instances(&self) -> &[DesignInstance<'a>]
        ensures { map spec.lent_instance result.now ≡ self.now.instances }
    {
        &self.instances
    }

    /// The signals: by instances, in each by its ports and then its signals, and in each of these from left to right.
    pub fn signals(&self) -> &[DesignSignal<'a>]
        ensures { map spec.lent_signal result.now ≡ self.now.signals }
    {
        &self.signals
    }

    /// The drivers: by instances of cells, and in each by its statements.
    pub fn drivers(&self) -> &[DesignDriver]
        ensures { result.now ≡ self.now.drivers }
    {
        &self.drivers
    }

    /// The bits of the top's ports, which are the first signals.
    #[tactic(auto, using(crate::proofs::FewPorts::few_ports))]
    pub fn ports(&self) -> &Ports
        ensures ports { result.now ≡ self.now.ports }
        ensures few { length result.now < 2 ^ 31 }
    {
        &self.ports
    }

    /// The cells, by their first instances.
    pub fn cells(&self) -> &'a [Checked]
        ensures { result.now ≡ self.now.cells }
    {
        self.cells
    }

    /// For each instance of a cell, in order, the signals of its bits: those of its ports, and then those of its internal signals.
    pub fn wiring(&self) -> &[List<usize>]
        ensures wiring { result.now ≡ self.now.wiring }
        ensures sound { IsSoundDesign self.now }
    {
        &self.wiring
    }

    /// The labels on the path of an instance, from the top on. It takes time in proportion to them.
    pub fn labels(&self, alloc: Global, instance: usize) -> Result<Vec<&'a [u8]>, AllocError>
        ensures { IfOk result (λ labels. map (λ l. l.now) labels.items ≡ spec.labels self.now instance) }
    {
        labels_of(alloc, &self.instances, instance)
    }

    /// The path of an instance as it is printed: its labels with dots between them, and a dash for the top.
    pub fn path(&self, alloc: Global, instance: usize) -> Result<Vec<u8>, AllocError>
        ensures { IfOk result (λ path. path.items ≡ trees.path_of self.now instance) }
    {
        let mut path = Vec::new(alloc);
        put_path(&mut path, &self.labels(alloc, instance)?)?;
        Ok(path)
    }

    /// The name of a signal as it is printed: the labels on the path of its instance, a dot behind each, and then its identifier with its
    /// index.
    pub fn signal_name(
        &self,
        alloc: Global,
        signal: &DesignSignal<'_>,
    ) -> Result<Vec<u8>, AllocError>
        ensures { IfOk result (λ name. name.items ≡ trees.name_of self.now (spec.lent_signal signal.now)) }
    {
        let mut name = Vec::new(alloc);
        put_dots(&mut name, &self.labels(alloc, signal.instance)?)?;
        put_bit(alloc, &mut name, signal.identifier, &signal.index)?;
        Ok(name)
    }

    /// How many drivers each signal has. It takes time in proportion to the signals and drivers.
    pub fn driver_counts(&self, alloc: Global) -> Result<Vec<usize>, AllocError>
        ensures { IfOk result (λ counts. counts.items ≡ map (spec.drivers_of self.now) (range_with_len 0 (length self.now.signals))) }
    {
        driver_counts(alloc, self.signals.len(), &self.drivers)
    }
}
