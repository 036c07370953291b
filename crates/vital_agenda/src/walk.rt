//! Walking back along the entries of one driver.

ghost use Rattle.std.specs.Prelude.{◌≡◌, [], None, filter};
ghost use Rattle.std.specs.Option.{option_map_or};
ghost use Rattle.vital_base.specs.declared.kind.Kind.TheVariants.{Transport, Inertial};
ghost use Rattle.vital_agenda.specs.declared.stay.Stay.TheVariants.{Same};
ghost use Rattle.vital_agenda.specs.Queues.{IsChain, IsTimeOf, Falls, IsFirst, chain_of, latest, earliest, is_up_to, entry_of, entry_staying, first_staying, after_staying};

use crate::entry::{Entry, Queue};
use crate::stay::Stay;
use crate::transaction::Transaction;
use vital_base::{Kind, Time};
use vital_logic::Level;

/// Where a walk back over a driver's entries halts: the time of the earliest entry that stays, and that of the next one
/// before it.
#[derive(Clone, Copy)]
pub(crate) struct Halt {
    pub(crate) kept: Option<Time>,
    pub(crate) rest: Option<Time>,
}

/// Walks back from a driver's entry at a time that may be missing to the first that does not stay. An entry that cannot
/// stay at its time is not looked up.
pub(crate) fn walk(queue: &Queue, driver: u32, last: Option<Time>, stay: Stay) -> Halt
    requires chain { IsChain (chain_of driver queue.now.entries) }
    requires there { IsTimeOf last (chain_of driver queue.now.entries) }
    ensures kept { let back = option_map_or (λ time. filter (is_up_to time) (chain_of driver queue.now.entries)) last [] in
        result.kept ≡ earliest (first_staying stay back) }
    ensures rest { let back = option_map_or (λ time. filter (is_up_to time) (chain_of driver queue.now.entries)) last [] in
        result.rest ≡ latest (after_staying stay back) }
{
    let mut kept = None;
    let mut rest = last;
    while let Some(entry) = entry_staying(queue, driver, rest, stay) {
        kept = rest;
        rest = entry.before;
    }
    Halt { kept, rest }
}

/// What stays of a driver's entries from a time back that may be missing, where a new one is assigned after them: where
/// it is inertial, the run of its value. By transport all stay, and the last of them is told, without a walk.
pub(crate) fn walk_before(
    queue: &Queue,
    driver: u32,
    last: Option<Time>,
    kind: Kind,
    value: Level,
) -> Halt
    requires chain { IsChain (chain_of driver queue.now.entries) }
    requires there { IsTimeOf last (chain_of driver queue.now.entries) }
    ensures transport { kind ≡ Transport → result ≡ record { kept = last; rest = None } }
    ensures kept { let back = option_map_or (λ time. filter (is_up_to time) (chain_of driver queue.now.entries)) last [] in
        kind ≡ Inertial → result.kept ≡ earliest (first_staying (Same value) back) }
    ensures rest { let back = option_map_or (λ time. filter (is_up_to time) (chain_of driver queue.now.entries)) last [] in
        kind ≡ Inertial → result.rest ≡ latest (after_staying (Same value) back) }
{
    match kind {
        Kind::Transport => Halt {
            kept: last,
            rest: None,
        },
        Kind::Inertial => walk(queue, driver, last, Stay::Same(value)),
    }
}

/// The entry of a driver at a time that may be missing, where there is one and it stays.
fn entry_staying(queue: &Queue, driver: u32, time: Option<Time>, stay: Stay) -> Option<Entry>
    requires { Falls (chain_of driver queue.now.entries) }
    ensures { result ≡ entry_staying stay (chain_of driver queue.now.entries) time }
{
    let time = time?;
    if !stay.allows(time) {
        return None;
    }
    let entry = entry_at(queue, driver, time)?;
    let value = entry.value;
    if stay.holds(Transaction { time, value }) {
        Some(entry)
    } else {
        None
    }
}

/// The entry of a driver at a time, where there is one.
fn entry_at(queue: &Queue, driver: u32, time: Time) -> Option<Entry>
    requires { Falls (chain_of driver queue.now.entries) }
    ensures { result ≡ entry_of time (chain_of driver queue.now.entries) }
{
    queue.get(&(time, driver)).copied()
}

/// The first entry of the queue with its key, where there is one.
pub(crate) fn first(queue: &Queue) -> Option<((Time, u32), Entry)>
    ensures { IsFirst result queue.now.entries }
{
    match queue.first_key_value() {
        Some((key, entry)) => Some((*key, *entry)),
        None => None,
    }
}
