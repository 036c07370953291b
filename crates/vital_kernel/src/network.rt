//! Networks: signals, drivers and instances of cells.

ghost use Rattle.std.specs.Prelude.{◌≡◌, ◌<◌, All, IfOk, IfSome, length, map, slice_get};
ghost use Rattle.std.specs.List.{AllZip};
ghost use Rattle.vital_typed_cells.specs.Fits.{FitsCell};
ghost use Rattle.vital_kernel.specs.DesignNetworks.{network, placed_cells};
ghost use Rattle.vital_kernel.specs.Networks.{lent_cell};
ghost use Rattle.vital_kernel.specs.PortNetworks.{port_network};
ghost use Rattle.vital_kernel.specs.Soundness.{IsSoundNetwork};

use crate::cells::cells_of;
use crate::counts::first_behind;
use crate::port_parts::{port_drivers, port_signals};
use crate::signals::signals_of;
use crate::stimulated::stimulus_drivers;
use std::alloc::{AllocError, Global};
use std::marker::Model;
use vital_base::{Name, Ports, Watch};
use vital_logic::Level;
use vital_netlist::{Design, DesignDriver};
use vital_stim::StimLine;
use vital_typed_cells::{Checked, Values};

/// A signal.
#[derive(Drop)]
pub struct NetSignal {
    /// The name that is printed for it.
    pub name: Name,
    /// Whether its value and its events are printed.
    pub is_watched: bool,
    /// Its value as long as nothing drives it.
    pub initial: Level,
}

/// An instance of a cell.
#[derive(Drop)]
pub struct NetCell<'a> {
    /// The path that is printed for it.
    pub path: Name,
    pub cell: &'a Checked,
    /// The delays of its timing generics.
    pub values: &'a Values,
    /// The numbers of the signals of its bits: those of its ports, and then those of its internal signals.
    pub wires: &'a [usize],
    /// The number of its first driver among all drivers.
    pub first_driver: u32,
    /// The number of the first instance, as far as known, whose cell and delays are those of this one; its own number where there is none
    /// before it.
    pub alike: u32,
}

/// What a run simulates. It is sound: there are fewer than 2^31 signals and drivers, each number in it is there, and the delays of each
/// instance fit its cell; and instances that are said to be alike have the same cell and the same delays. Contracts see it as the lists of its
/// parts.
#[derive(Drop)]
pub struct Network<'a> {
    signals: Vec<NetSignal>,
    /// The drivers of the stimuli come before those of the cells.
    stimulus_drivers: Vec<DesignDriver>,
    cell_drivers: &'a [DesignDriver],
    cells: Vec<NetCell<'a>>,
}

impl<'a> Model for Network<'a> {
    ghost use Rattle.std.specs.Prelude.{map};
    ghost use Rattle.std.specs.Coded.{codes};
    ghost use Rattle.vital_netlist.specs.contracts.design_lists.DesignDriver as driver;
    ghost use Rattle.vital_kernel.specs.Alike.{AreAlike};
    ghost use Rattle.vital_kernel.specs.Networks.{Network as Network', lent_cell};
    ghost use Rattle.vital_kernel.specs.Soundness.{IsSoundNetwork};
    ghost use Rattle.vital_kernel.specs.contracts.network.NetSignal as signal;
    ghost use Rattle.vital_timing.specs.contracts.delay.Delay as delay;
    ghost use Rattle.vital_typed_cells.specs.contracts.typed_cell.TypedCell as tree;

    ghost Value = { Network' };

    ghost coded = { Prim.hlevel (codes, delay.the_row.coded, driver.the_row.coded, signal.the_row.coded, tree.the_row.coded) };

    ghost view = { λ n. record { signals = n.signals.items; stimulus_drivers = n.stimulus_drivers.items; cell_drivers = n.cell_drivers.now; cells = map lent_cell n.cells.items } };

    ghost invariant = { λ n. IsSoundNetwork (record { signals = n.signals.items; stimulus_drivers = n.stimulus_drivers.items; cell_drivers = n.cell_drivers.now; cells = map lent_cell n.cells.items }) × AreAlike n.cells.items };
}

impl<'a> Network<'a> {
    /// The network of a design with delays for the timing generics of each instance of a cell, in order, and with these stimuli, of which
    /// these signals are watched. It takes time and memory in proportion to the design with its names and to the stimuli, and fails as
    /// without memory where there are 2^31 or more drivers.
    pub fn of_design(
        alloc: Global,
        design: &'a Design<'_>,
        values: &[&'a Values],
        lines: &[StimLine],
        watch: Watch,
    ) -> Result<Network<'a>, AllocError>
        requires fit { AllZip (λ placed delays. FitsCell placed.1 delays.now) (placed_cells design.now) values.now }
        requires there { All (λ line. line.port < length design.now.ports) lines.now }
        ensures { IfOk result (λ n. n ≡ network design.now (map (λ v. v.now) values.now) lines.now watch) }
    {
        let stimulus_drivers = stimulus_drivers(alloc, design.ports().as_slice(), lines)?;
        let first = first_behind(stimulus_drivers.len(), design.drivers().len())?;
        Ok(Network {
            signals: signals_of(alloc, design, watch)?,
            stimulus_drivers,
            cell_drivers: design.drivers(),
            cells: cells_of(alloc, design, first, values, design.wiring())?,
        })
    }

    /// The network of ports alone, whose names it takes. It fails as without memory where there are 2^31 or more of them.
    pub fn of_ports(alloc: Global, ports: Ports) -> Result<Network<'a>, AllocError>
        ensures { IfOk result (λ n. n ≡ port_network ports) }
    {
        let ports = ports.into_vec();
        first_behind(ports.len(), 0)?;
        let stimulus_drivers = port_drivers(alloc, &ports)?;
        Ok(Network {
            signals: port_signals(alloc, ports)?,
            stimulus_drivers,
            cell_drivers: &[],
            cells: Vec::new(alloc),
        })
    }

    /// The signals.
    pub fn signals(&self) -> &[NetSignal]
        ensures signals { result.now ≡ self.now.signals }
        ensures sound { IsSoundNetwork self.now }
    {
        self.signals.as_slice()
    }

    /// The drivers of the stimuli, which come before those of the cells.
    pub fn stimulus_drivers(&self) -> &[DesignDriver]
        ensures { result.now ≡ self.now.stimulus_drivers }
    {
        self.stimulus_drivers.as_slice()
    }

    /// The drivers of the cells.
    pub fn cell_drivers(&self) -> &[DesignDriver]
        ensures { result.now ≡ self.now.cell_drivers }
    {
        self.cell_drivers
    }

    /// The instances of cells, in order.
    pub fn cells(&self) -> &[NetCell<'a>]
        ensures cells { map lent_cell result.now ≡ self.now.cells }
        ensures sound { IsSoundNetwork self.now }
        ensures alike { All (λ c. IfSome (slice_get result.now c.alike) (λ other. (other.cell.now ≡ c.cell.now) × (other.values.now ≡ c.values.now))) result.now }
        ensures there { All (λ c. c.alike < length result.now) result.now }
    {
        self.cells.as_slice()
    }
}
