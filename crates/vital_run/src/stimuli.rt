//! Playing the stimuli of a file.

ghost use Rattle.std.specs.Prelude.{◌≡◌, ◌^◌, ◌≤◌, false, length, map, All};
ghost use Rattle.std.specs.List.Sorted.{IsNonDecreasing};
ghost use Rattle.vital_stim.specs.Stimuli.{Fits};
ghost use Rattle.vital_answers.specs.Outcome.{Stage};
ghost use Rattle.vital_run.specs.Stimuli.{IsStimuliAnswer, IsTextAnswer, printed_why, refused_stimuli};

use crate::network_run::run_network;
use std::alloc::Global;
use vital_answers::{Status, end_with};
use vital_base::{Name, Sink, Time};
use vital_kernel::Network;
use vital_report::{Line, Printer, StimulusWhy};
use vital_stim::{StimError, StimFault, StimWhy, Stimuli, read_stim};

/// No cycle of `play` has a delta number as large as that.
const DELTA_LIMIT: u32 = 1_000;

/// Plays the text of a stimulus file of this name.
pub fn play_text<K: Sink>(
    alloc: Global,
    name: &Name,
    until: Time,
    text: &[u8],
    printer: &mut Printer<'_, K>,
) -> Status
    requires short { length text.now ≤ 16_777_216 }
    requires until { until ≤ 2 ^ 60 }
    requires goes_on { printer.old.stopped ≡ false }
    ensures { Stage (IsTextAnswer name.now until text.now) result printer.old printer.new }
{
    match read_stim(alloc, text, None) {
        Ok(stimuli) => play_stimuli(alloc, stimuli, until, printer),
        Err(StimError::Fault(fault)) => refuse_stimuli(name, fault, printer),
        Err(StimError::NoMemory) => Status::NoMemory,
    }
}

/// Plays stimuli.
fn play_stimuli<K: Sink>(
    alloc: Global,
    stimuli: Stimuli,
    until: Time,
    printer: &mut Printer<'_, K>,
) -> Status
    requires fit { All (Fits stimuli) stimuli.lines }
    requires in_order { IsNonDecreasing (map (λ line. line.time) stimuli.lines) }
    requires until { until ≤ 2 ^ 60 }
    requires goes_on { printer.old.stopped ≡ false }
    ensures { Stage (IsStimuliAnswer until stimuli) result printer.old printer.new }
{
    let Stimuli { ports, lines } = stimuli;
    let Ok(network) = Network::of_ports(alloc, ports) else {
        return Status::NoMemory;
    };
    let lines = lines.as_slice();
    run_network(alloc, &network, lines, until, DELTA_LIMIT, printer)
}

/// Refuses a stimulus file of this name with a fault.
pub fn refuse_stimuli<K: Sink>(
    name: &Name,
    fault: StimFault,
    printer: &mut Printer<'_, K>,
) -> Status
    requires goes_on { printer.old.stopped ≡ false }
    ensures { Stage (λ answer. answer ≡ refused_stimuli name.now fault) result printer.old printer.new }
{
    let line = Line::RefusedStimulus {
        why: printed_why(fault.why),
        file: name,
        line: fault.line,
    };
    end_with(&line, Status::Stimulus, printer)
}

/// Why a stimulus file is refused, as it is printed.
fn printed_why(why: StimWhy) -> StimulusWhy
    ensures { result ≡ printed_why why }
{
    match why {
        StimWhy::Line => StimulusWhy::Line,
        StimWhy::Unit => StimulusWhy::Unit,
        StimWhy::Large => StimulusWhy::Large,
        StimWhy::Value => StimulusWhy::Value,
        StimWhy::Falls => StimulusWhy::Falls,
        StimWhy::UnknownPort => StimulusWhy::UnknownPort,
        StimWhy::NotInput => StimulusWhy::NotInput,
    }
}
