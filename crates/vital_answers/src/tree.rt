//! The lines of the design under a top.

ghost use Rattle.std.specs.Prelude.{◌≡◌, false, map};
ghost use Rattle.vital_netlist.specs.Designs.{lent_instance, lent_signal};
ghost use Rattle.vital_netlist.specs.Trees.{name_of, tree_instance, tree_instances, tree_signals};
ghost use Rattle.vital_report.specs.Lines.{bytes_of, signal as signal', text_of};
ghost use Rattle.vital_report.specs.Reporters.{PrintsPart};
ghost use Rattle.vital_answers.specs.Trees as spec;

use std::alloc::Global;
use vital_base::Sink;
use vital_netlist::{Design, DesignInstance, DesignSignal, NameText};
use vital_report::{Line, PrintError, Printer};

/// Prints the line of the instance of a number.
fn print_instance<K: Sink>(
    alloc: Global,
    names: &mut NameText<'_, '_>,
    number: usize,
    instance: &DesignInstance<'_>,
    printer: &mut Printer<'_, K>,
) -> Result<(), PrintError>
    requires goes_on { printer.old.stopped ≡ false }
    ensures same { names.new.design ≡ names.old.design }
    ensures prints { PrintsPart result (bytes_of (spec.instance_line (tree_instance names.old.design (number, lent_instance instance.now)))) printer.old printer.new }
{
    names.write_path(alloc, number)?;
    let line = Line::Instance {
        path: names.as_slice(),
        unit: instance.unit,
        is_cell: instance.cell.is_some(),
    };
    printer.print(&line)?;
    Ok(())
}

/// Prints the lines of the instances of a design.
fn print_instances<K: Sink>(
    alloc: Global,
    design: &Design<'_>,
    instances: &[DesignInstance<'_>],
    printer: &mut Printer<'_, K>,
) -> Result<(), PrintError>
    requires those { map lent_instance instances.now ≡ design.now.instances }
    requires goes_on { printer.old.stopped ≡ false }
    ensures { PrintsPart result (text_of (map spec.instance_line (tree_instances design.now))) printer.old printer.new }
{
    let mut names = NameText::new(alloc, design);
    for (number, instance) in instances.iter().enumerate() {
        print_instance(alloc, &mut names, number, instance, printer)?;
    }
    Ok(())
}

/// Prints the line of a signal with so many drivers.
fn print_signal<K: Sink>(
    alloc: Global,
    names: &mut NameText<'_, '_>,
    signal: &DesignSignal<'_>,
    drivers: usize,
    printer: &mut Printer<'_, K>,
) -> Result<(), PrintError>
    requires goes_on { printer.old.stopped ≡ false }
    ensures same { names.new.design ≡ names.old.design }
    ensures prints { PrintsPart result (bytes_of (signal' (name_of names.old.design (lent_signal signal.now)) signal.now.is_resolved drivers)) printer.old printer.new }
{
    names.write_signal(alloc, signal)?;
    let line = Line::Signal {
        name: names.as_slice(),
        is_resolved: signal.is_resolved,
        drivers: drivers as u64,
    };
    printer.print(&line)?;
    Ok(())
}

/// Prints the lines of the signals.
fn print_signals<K: Sink>(
    alloc: Global,
    design: &Design<'_>,
    printer: &mut Printer<'_, K>,
) -> Result<(), PrintError>
    requires goes_on { printer.old.stopped ≡ false }
    ensures { PrintsPart result (text_of (map spec.signal_line (tree_signals design.now))) printer.old printer.new }
{
    let counts = design.driver_counts(alloc)?;
    let all = design.signals();
    let mut names = NameText::new(alloc, design);
    for number in 0..all.len() {
        print_signal(alloc, &mut names, &all[number], counts[number], printer)?;
    }
    Ok(())
}

/// Prints the lines of a design: its instances, its signals, and the end. It takes time in proportion to what is printed.
pub fn print_design<K: Sink>(
    alloc: Global,
    design: &Design<'_>,
    printer: &mut Printer<'_, K>,
) -> Result<(), PrintError>
    requires goes_on { printer.old.stopped ≡ false }
    ensures { PrintsPart result (text_of (spec.tree_lines design.now)) printer.old printer.new }
{
    print_instances(alloc, design, design.instances(), printer)?;
    print_signals(alloc, design, printer)?;
    printer.print(&Line::EndOfDesign)?;
    Ok(())
}
