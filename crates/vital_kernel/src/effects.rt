//! The effects of a process that ran.

ghost use Rattle.std.specs.Prelude.{◌≡◌, ◌<◌, ◌≤◌, ◌+◌, ◌^◌, false, All, OnOk, length};
ghost use Rattle.std.specs.List.{flat_map, fold};
ghost use Rattle.vital_kernel.specs.Activations.{KeepsValues, message_text};
ghost use Rattle.vital_kernel.specs.Cycles.{sent};
ghost use Rattle.vital_machine.specs.Fits.{EffectIsOfCell, EndsInTime};
ghost use Rattle.vital_kernel.specs.DesignNetworks.{driver_count};
ghost use Rattle.vital_kernel.specs.Networks.{lent_cell};
ghost use Rattle.vital_report.specs.Reporters.{PrintsPart};
ghost use Rattle.vital_typed_cells.specs.Sound.{bit_count};

use crate::network::NetCell;
use crate::printing::{print_glitch, print_violation};
use crate::processes::Processes;
use vital_agenda::Agenda;
use vital_base::Sink;
use vital_machine::Effect;
use vital_report::{PrintError, Printer};
use vital_signals::assignments_keep_values;

/// Makes the effects of the process that ran last, in order: it is one of this instance of a cell. Assignments go to the agenda, and messages
/// are printed.
pub(crate) fn make_effects<A: Agenda, K: Sink>(
    cell: &NetCell<'_>,
    processes: &Processes<'_>,
    delta: u64,
    agenda: &mut A,
    printer: &mut Printer<'_, K>,
) -> Result<(), PrintError>
    requires ends { All (EndsInTime (A.content agenda.old).now) processes.now.effects }
    requires numbers { let c = lent_cell cell.now in All (EffectIsOfCell (driver_count c.tree) (bit_count c.tree)) processes.now.effects }
    requires drivers { let c = lent_cell cell.now in c.first_driver + driver_count c.tree ≤ length (A.content agenda.old).drivers }
    requires few { length (A.content agenda.old).drivers < 2 ^ 31 }
    requires goes_on { printer.old.stopped ≡ false }
    ensures sent { let before = A.content agenda.old in OnOk result (A.content agenda.new
        ≡ record before { drivers = fold (sent before.now (lent_cell cell.now).first_driver) before.drivers processes.now.effects }) }
    ensures keeps { KeepsValues (A.content agenda.old) (A.content agenda.new) }
    ensures prints { PrintsPart result (flat_map (message_text (A.content agenda.old).now delta (lent_cell cell.now)) processes.now.effects) printer.old printer.new }
{
    for number in 0..processes.effect_count() {
        make_effect(cell, processes.effect(number), delta, agenda, printer)?;
    }
    Ok(())
}

/// Makes an effect.
fn make_effect<A: Agenda, K: Sink>(
    cell: &NetCell<'_>,
    effect: Effect,
    delta: u64,
    agenda: &mut A,
    printer: &mut Printer<'_, K>,
) -> Result<(), PrintError>
    requires ends { EndsInTime (A.content agenda.old).now effect }
    requires numbers { let c = lent_cell cell.now in EffectIsOfCell (driver_count c.tree) (bit_count c.tree) effect }
    requires drivers { let c = lent_cell cell.now in c.first_driver + driver_count c.tree ≤ length (A.content agenda.old).drivers }
    requires few { length (A.content agenda.old).drivers < 2 ^ 31 }
    requires goes_on { printer.old.stopped ≡ false }
    ensures sent { let before = A.content agenda.old in OnOk result (A.content agenda.new
        ≡ record before { drivers = sent before.now (lent_cell cell.now).first_driver before.drivers effect }) }
    ensures keeps { KeepsValues (A.content agenda.old) (A.content agenda.new) }
    ensures prints { PrintsPart result (message_text (A.content agenda.old).now delta (lent_cell cell.now) effect) printer.old printer.new }
{
    let now = agenda.now();
    match effect {
        Effect::Assign { driver, send } => {
            assignments_keep_values();
            agenda.assign(
                cell.first_driver + driver,
                send.kind,
                send.value,
                send.delay,
            )?;
            Ok(())
        }
        Effect::Glitch { port } => {
            print_glitch(cell, port, now, delta, printer)?;
            Ok(())
        }
        Effect::Violation {
            test,
            reference,
            violated,
        } => {
            print_violation(cell, test, reference, violated, now, delta, printer)?;
            Ok(())
        }
    }
}
