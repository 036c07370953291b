//! The processes that are sensitive to each signal.

ghost use Rattle.std.specs.Prelude.{◌≡◌, ◌+◌, ◌++◌, ◌≤◌, [], IfOk, length, map, slice_index_or, sum_by};
ghost use Rattle.std.specs.List.{flat_map};
ghost use Rattle.vital_kernel.specs.Triggered.{triggered_by};
ghost use Rattle.vital_kernel.specs.Networks.{processes, sensitivity};
ghost use Rattle.vital_signals.specs.Lists.{AreRising};

use crate::lists::{lists_of, places};
use crate::network::Network;
use crate::sensitivities::sensitivities_of;
use std::alloc::{AllocError, Global};
use std::marker::Model;
use vital_base::List;
use vital_signals::Numbers;

/// For each signal the processes that are sensitive to it, and those that the events of the last cycle make run. All memory is taken at the
/// start. Contracts see it as the signals to which each process is sensitive, and the numbers of those that are made run.
#[derive(Drop)]
pub struct Listeners {
    /// The signals to which each process is sensitive.
    sensitivities: Vec<List<u32>>,
    /// For each signal the processes that are sensitive to it.
    lists: Vec<Vec<u32>>,
    triggered: Numbers,
}

impl Model for Listeners {
    ghost use Rattle.std.specs.Prelude.{◌≡◌, length, map, sum_by};
    ghost use Rattle.vital_kernel.specs.Lists.{AreListed};
    ghost use Rattle.vital_kernel.specs.Triggered.{ListenerState};

    ghost Value = { ListenerState };

    ghost view = { λ l. record { signals = length l.lists.items; sensitivities = l.sensitivities.items; triggered = l.triggered.listed } };

    ghost invariant = { λ l. AreListed l.sensitivities.items (map (λ list. list.items) l.lists.items)
        × (l.triggered.room ≡ sum_by (λ list. length list) (map (λ list. list.items) l.lists.items)) };
}

impl Listeners {
    /// The processes of a network, of which none is made run. It takes time and memory in proportion to the network, and fails as without
    /// memory where there are 2^32 or more processes or places in their lists.
    pub fn new(alloc: Global, network: &Network<'_>) -> Result<Listeners, AllocError>
        ensures { IfOk result (λ l. l ≡ record { signals = length network.now.signals; sensitivities = map sensitivity (processes network.now); triggered = [] }) }
    {
        let sensitivities = sensitivities_of(alloc, network.cells())?;
        let lists = lists_of(alloc, network.signals().len(), &sensitivities)?;
        let triggered = Numbers::reserve(alloc, places(&lists)?)?;
        Ok(Listeners {
            sensitivities,
            lists,
            triggered,
        })
    }

    /// Lists the processes that are sensitive to some of the signals that have an event, which rise and are ones of the network: each once,
    /// rising. It takes no memory, and time in proportion to the places of these signals in lists (and a logarithm for the order).
    pub fn trigger(&mut self, events: &[u32])
        requires { AreRising 0 self.old.signals events.now }
        ensures { self.new ≡ record self.old { triggered = triggered_by events.now self.old.sensitivities } }
    {
        gather(&mut self.triggered, &self.lists, events);
        self.triggered.order();
    }

    /// The numbers of the processes that are made run, rising.
    pub fn triggered(&self) -> &[u32]
        ensures { result.now ≡ self.now.triggered }
    {
        self.triggered.as_slice()
    }
}

/// Lists these processes as well.
fn add_all(triggered: &mut Numbers, processes: &[u32])
    requires { length triggered.old.listed + length processes.now ≤ triggered.old.room }
    ensures { triggered.new ≡ record triggered.old { listed = triggered.old.listed ++ processes.now } }
{
    for process in processes {
        triggered.add(*process);
    }
}

/// Lists the processes that are sensitive to signals, in the order of these.
fn gather(triggered: &mut Numbers, lists: &[Vec<u32>], events: &[u32])
    requires rising { AreRising 0 (length lists.now) events.now }
    requires room { sum_by (λ list. length list) (map (λ list. list.items) lists.now) ≤ triggered.old.room }
    ensures listed { triggered.new.listed ≡ flat_map (λ event. slice_index_or (map (λ list. list.items) lists.now) event []) events.now }
    ensures keeps_room { triggered.new.room ≡ triggered.old.room }
{
    triggered.clear();
    for event in events {
        add_all(triggered, &lists[*event as usize]);
    }
}
