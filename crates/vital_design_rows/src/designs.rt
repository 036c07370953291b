//! Designs as lines.

use super::faults::put_bytes;
use super::words::DesignView;
use std::alloc::{AllocError, Global};
use vital_logic::to_byte;
use vital_netlist::{Design, DesignInstance, DesignSignal};

/// Puts an instance: its path, its unit and whether it is a cell.
fn put_instance(
    alloc: Global,
    text: &mut String,
    design: &Design<'_>,
    number: usize,
    instance: &DesignInstance<'_>,
) -> Result<(), AllocError> {
    text.push_str("instance ")?;
    put_bytes(text, &design.path(alloc, number)?)?;
    text.push(' ')?;
    put_bytes(text, instance.unit)?;
    match instance.cell {
        Some(_) => text.push_str(" cell\n"),
        None => text.push_str(" net\n"),
    }
}

/// Puts the name of a signal.
fn put_name(
    alloc: Global,
    text: &mut String,
    design: &Design<'_>,
    signal: &DesignSignal<'_>,
) -> Result<(), AllocError> {
    text.push_str("signal ")?;
    put_bytes(text, &design.signal_name(alloc, signal)?)
}

/// Puts the instances of a design, and then its signals, each with its type and how many drivers it has.
fn put_tree(alloc: Global, text: &mut String, design: &Design<'_>) -> Result<(), AllocError> {
    for (number, instance) in design.instances().iter().enumerate() {
        put_instance(alloc, text, design, number, instance)?;
    }
    let counts = design.driver_counts(alloc)?;
    for (signal, count) in design.signals().iter().zip(&counts) {
        put_name(alloc, text, design, signal)?;
        let subtype = if signal.is_resolved {
            "std_logic"
        } else {
            "std_ulogic"
        };
        write!(text, " {subtype} {count}\n")?;
    }
    Ok(())
}

/// Puts the signals of a design with their values as long as nothing drives them, and then the bits of the ports of the top.
fn put_values(alloc: Global, text: &mut String, design: &Design<'_>) -> Result<(), AllocError> {
    for signal in design.signals() {
        put_name(alloc, text, design, signal)?;
        write!(text, " {}\n", char::from(to_byte(signal.initial)))?;
    }
    for port in design.ports().as_slice() {
        text.push_str(if port.input { "in " } else { "out " })?;
        put_bytes(text, port.name.as_slice())?;
        write!(text, " {}\n", char::from(port.initial))?;
    }
    Ok(())
}

/// Puts the numbers of the cells of instances, or a dash.
fn put_cells(text: &mut String, design: &Design<'_>) -> Result<(), AllocError> {
    text.push_str("cells")?;
    for instance in design.instances() {
        match instance.cell {
            Some(number) => write!(text, " {number}")?,
            None => text.push_str(" -")?,
        }
    }
    text.push('\n')
}

/// Puts the numbers of the cells of instances, the signals of the bits of each instance of a cell, and the signals that are driven with the
/// levels that their drivers begin with.
fn put_wiring(text: &mut String, design: &Design<'_>) -> Result<(), AllocError> {
    put_cells(text, design)?;
    for wires in design.wiring() {
        text.push_str("bits")?;
        for signal in wires.as_slice() {
            write!(text, " {signal}")?;
        }
        text.push('\n')?;
    }
    for driver in design.drivers() {
        let level = char::from(to_byte(driver.initial));
        write!(text, "driver {} {level}\n", driver.signal)?;
    }
    Ok(())
}

/// Puts what a view shows of a design.
pub fn put_design(
    alloc: Global,
    view: DesignView,
    text: &mut String,
    design: &Design<'_>,
) -> Result<(), AllocError> {
    match view {
        DesignView::Tree => put_tree(alloc, text, design),
        DesignView::Values => put_values(alloc, text, design),
        DesignView::Wiring => put_wiring(text, design),
        DesignView::SignalCount => write!(text, "{}\n", design.signals().len()),
    }
}
