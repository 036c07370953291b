//! The lines of a run.

ghost use Rattle.std.specs.Prelude.{◌≡◌, ◌<◌, false, All, IfSome, length, map};
ghost use Rattle.std.specs.List.{flat_map, zip};
ghost use Rattle.std.specs.Option.{option_copied, option_map};
ghost use Rattle.vital_kernel.specs.Activations as spec;
ghost use Rattle.vital_kernel.specs.Networks.{lent_cell};
ghost use Rattle.vital_report.specs.Lines.{bytes_of, glitch as glitch', violation as violation'};
ghost use Rattle.vital_report.specs.Reporters.{Prints};
ghost use Rattle.vital_typed_cells.specs.Sound.{bit_count};

use crate::network::{NetCell, NetSignal};
use vital_base::{Sink, Time, WriteFault};
use vital_logic::Level;
use vital_report::{Line, Printer};
use vital_signals::Signals;
use vital_timing_checks::Violated;
use vital_typed_cells::TypedCell;

/// Prints the value of each signal that is watched.
pub(crate) fn print_inits<K: Sink>(
    watched: &[NetSignal],
    signals: &Signals,
    printer: &mut Printer<'_, K>,
) -> Result<(), WriteFault>
    requires one_each { length watched.now ≡ length signals.now.signals }
    requires goes_on { printer.old.stopped ≡ false }
    ensures { Prints result (flat_map spec.init_text (zip watched.now (map (λ s. s.value) signals.now.signals))) printer.old printer.new }
{
    for number in 0..signals.len() {
        let value = signals.value(number);
        print_init(&watched[number as usize], value, printer)?;
    }
    Ok(())
}

/// Prints the value of a signal, where it is watched.
fn print_init<K: Sink>(
    signal: &NetSignal,
    value: Level,
    printer: &mut Printer<'_, K>,
) -> Result<(), WriteFault>
    requires { printer.old.stopped ≡ false }
    ensures { Prints result (spec.init_text (signal.now, value)) printer.old printer.new }
{
    if signal.is_watched {
        let name = &signal.name;
        printer.print(&Line::Init { name, value })?;
    }
    Ok(())
}

/// Prints the events of a cycle: one for each signal that had one and is watched.
pub(crate) fn print_events<K: Sink>(
    watched: &[NetSignal],
    signals: &Signals,
    time: Time,
    delta: u64,
    printer: &mut Printer<'_, K>,
) -> Result<(), WriteFault>
    requires one_each { length watched.now ≡ length signals.now.signals }
    requires there { All (λ number. number < length watched.now) signals.now.events }
    requires goes_on { printer.old.stopped ≡ false }
    ensures { Prints result (flat_map (spec.event_text_at time delta watched.now signals.now.signals) signals.now.events) printer.old printer.new }
{
    let events = signals.events();
    for number in events {
        let value = signals.value(*number);
        print_event(&watched[*number as usize], value, time, delta, printer)?;
    }
    Ok(())
}

/// Prints an event of a signal, where it is watched.
fn print_event<K: Sink>(
    signal: &NetSignal,
    value: Level,
    time: Time,
    delta: u64,
    printer: &mut Printer<'_, K>,
) -> Result<(), WriteFault>
    requires { printer.old.stopped ≡ false }
    ensures { Prints result (spec.event_text time delta value signal.now) printer.old printer.new }
{
    if signal.is_watched {
        let name = &signal.name;
        printer.print(&Line::Event {
            time,
            delta,
            name,
            value,
        })?;
    }
    Ok(())
}

/// Prints that a port of an instance has a glitch.
pub(crate) fn print_glitch<K: Sink>(
    cell: &NetCell<'_>,
    port: u32,
    time: Time,
    delta: u64,
    printer: &mut Printer<'_, K>,
) -> Result<(), WriteFault>
    requires { port < bit_count (lent_cell cell.now).tree }
    ensures { let c = lent_cell cell.now in Prints result (bytes_of (glitch' time delta c.path (spec.name_of c.tree port))) printer.old printer.new }
{
    let line = Line::Glitch {
        time,
        delta,
        path: cell.path.as_slice(),
        port: name_of(cell.cell.cell(), port),
    };
    printer.print(&line)
}

/// Prints that a check of an instance is violated: the bit that was tested, and the one that it was compared with, if there is one.
pub(crate) fn print_violation<K: Sink>(
    cell: &NetCell<'_>,
    test: u32,
    reference: Option<u32>,
    violated: Violated,
    time: Time,
    delta: u64,
    printer: &mut Printer<'_, K>,
) -> Result<(), WriteFault>
    requires test { test < bit_count (lent_cell cell.now).tree }
    requires reference { IfSome reference (λ bit. bit < bit_count (lent_cell cell.now).tree) }
    ensures { let c = lent_cell cell.now in
        Prints result (bytes_of (violation' time delta c.path (spec.name_of c.tree test) (option_map (spec.name_of c.tree) reference) violated)) printer.old printer.new }
{
    let tree = cell.cell.cell();
    let line = Line::Violation {
        time,
        delta,
        path: cell.path.as_slice(),
        test: name_of(tree, test),
        reference: name_if_given(tree, reference),
        violated,
    };
    printer.print(&line)
}

/// The name of a bit of a cell, if there is one.
fn name_if_given(cell: &TypedCell, bit: Option<u32>) -> Option<&[u8]>
    requires { IfSome bit (λ number. number < bit_count cell.now) }
    ensures { option_copied result ≡ option_map (spec.name_of cell.now) bit }
{
    match bit {
        Some(number) => Some(name_of(cell, number)),
        None => None,
    }
}

/// The name of a bit of a cell: those of the ports come before those of the internal signals.
fn name_of(cell: &TypedCell, bit: u32) -> &[u8]
    requires { bit < bit_count cell.now }
    ensures { result.now ≡ spec.name_of cell.now bit }
{
    let ports = cell.ports.as_slice();
    let number = bit as usize;
    if number < ports.len() {
        ports[number].name.as_slice()
    } else {
        let signals = cell.signals.as_slice();
        signals[number - ports.len()].name.as_slice()
    }
}
