//! The stimuli: process 0 of a simulation.

ghost use Rattle.std.specs.Prelude.{◌≡◌, ◌==◌, ◌<◌, ◌≤◌, ◌^◌, ℕ, true, All, IfOk, OnOk, Some, length, slice_index};
ghost use Rattle.std.specs.List.{list_any, position_or_len, prefix_len};
ghost use Rattle.vital_agenda.specs.Driver.{next_time, sooner as sooner'};
ghost use Rattle.vital_kernel.specs.Activations.{KeepsValues};
ghost use Rattle.vital_kernel.specs.Handing.{AreLeft, AreStimulusDrivers, due_lines, first_time as first_time', later_lines, with_lines};
ghost use Rattle.vital_kernel.specs.Runs.{up_to as up_to'};

use crate::network::Network;
use std::alloc::{AllocError, Global};
use vital_agenda::Agenda;
use vital_base::{Kind, Time};
use vital_netlist::DesignDriver;
use vital_signals::assignments_keep_values;
use vital_stim::StimLine;

/// For each signal the number of its first driver for the stimuli; 0 where it has none.
pub(crate) fn stimulus_drivers(alloc: Global, network: &Network<'_>) -> Result<Vec<u32>, AllocError>
    ensures { IfOk result (λ numbers. AreStimulusDrivers network.now numbers.items) }
{
    let mut numbers = vec![in alloc; 0; network.signals().len()]?;
    number_drivers(&mut numbers, network.stimulus_drivers());
    Ok(numbers)
}

/// Puts the number of the first of these drivers of each signal in its place.
fn number_drivers(numbers: &mut [u32], drivers: &[DesignDriver])
    requires few { length drivers.now < 2 ^ 31 }
    requires there { All (λ d. d.signal < length numbers.old) drivers.now }
    ensures { (port : ℕ) → list_any (λ d. d.signal == port) drivers.now ≡ true
        → slice_index numbers.new port ≡ position_or_len (λ d. d.signal == port) drivers.now }
{
    for number in (0..drivers.len()).rev() {
        numbers[drivers[number].signal] = number as u32;
    }
}

/// The sooner of two times, either of which may be missing.
pub(crate) fn sooner(time: Option<Time>, other: Option<Time>) -> Option<Time>
    ensures { result ≡ sooner' time other }
{
    match (time, other) {
        (Some(time), Some(other)) => Some(time.min(other)),
        (Some(time), None) => Some(time),
        (None, other) => other,
    }
}

/// A time that may be missing, where it is not after the end time.
pub(crate) fn up_to(until: Time, time: Option<Time>) -> Option<Time>
    ensures { result ≡ up_to' until time }
{
    match time {
        Some(time) if time <= until => Some(time),
        _ => None,
    }
}

/// The time of the first of some lines.
pub(crate) fn first_time(lines: &[StimLine]) -> Option<Time>
    ensures { result ≡ first_time' lines.now }
{
    match lines.first() {
        Some(line) => Some(line.time),
        None => None,
    }
}

/// Hands the first of the lines that are left, as far as they come at the time of the next cycle, to the drivers of their ports, and gives those
/// that are left then: with these the drivers are as before.
pub(crate) fn hand_due<'a, A: Agenda>(
    numbers: &[u32],
    left: &'a [StimLine],
    time: Time,
    agenda: &mut A,
) -> Result<&'a [StimLine], AllocError>
    requires left { let content = A.content agenda.old in AreLeft numbers.now (length content.drivers) content.now left.now }
    requires next { next_time (with_lines numbers.now left.now (A.content agenda.old).drivers) ≡ Some time }
    ensures left { IfOk result (λ later. later.now ≡ later_lines time left.now) }
    ensures same { IfOk result (λ later. with_lines numbers.now later.now (A.content agenda.new).drivers ≡ with_lines numbers.now left.now (A.content agenda.old).drivers) }
    ensures next { OnOk result (next_time (A.content agenda.new).drivers ≡ Some time) }
    ensures keeps { KeepsValues (A.content agenda.old) (A.content agenda.new) }
{
    let (due, later) = split_due(left, time);
    assign_lines(numbers, due, agenda)?;
    Ok(later)
}

/// The first lines, as far as they come at a time, and those after them.
fn split_due(lines: &[StimLine], time: Time) -> (&[StimLine], &[StimLine])
    ensures due { result.0.now ≡ due_lines time lines.now }
    ensures later { result.1.now ≡ later_lines time lines.now }
{
    lines.split_at(due_count(lines, time))
}

/// How many of the first lines come at a time.
fn due_count(lines: &[StimLine], time: Time) -> usize
    ensures count { result ≡ prefix_len (λ line. line.time == time) lines.now }
    ensures within { result ≤ length lines.now }
{
    lines.iter().take_while(|line| line.time == time).count()
}

/// Assigns some lines, each to the driver of its port.
fn assign_lines<A: Agenda>(
    numbers: &[u32],
    lines: &[StimLine],
    agenda: &mut A,
) -> Result<(), AllocError>
    requires ports { All (λ line. line.port < length numbers.now) lines.now }
    requires drivers { All (λ line. slice_index numbers.now line.port < length (A.content agenda.old).drivers) lines.now }
    requires times { All (λ line. line.time ≤ 2 ^ 60) lines.now }
    requires later { All (λ line. (A.content agenda.old).now ≤ line.time) lines.now }
    ensures assigned { OnOk result (A.content agenda.new ≡ record (A.content agenda.old) { drivers = with_lines numbers.now lines.now (A.content agenda.old).drivers }) }
    ensures keeps { KeepsValues (A.content agenda.old) (A.content agenda.new) }
{
    assignments_keep_values();
    let now = agenda.now();
    for line in lines {
        agenda.assign(
            numbers[line.port as usize],
            Kind::Transport,
            line.value,
            line.time - now,
        )?;
    }
    Ok(())
}
