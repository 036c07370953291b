//! What processes see of the signals of a network.

ghost use Rattle.std.specs.Prelude.{◌≡◌, ◌^◌, ◌<◌, All, length};
ghost use Rattle.vital_kernel.specs.Processes.{input};
ghost use Rattle.vital_kernel.specs.Programs.{seen};

use vital_base::Time;
use vital_machine::{Input, Inputs};
use vital_signals::{Signal, Signals};

/// TIME'HIGH in femtoseconds.
const TIME_HIGH: Time = 9_223_372_036_854_775_807;

/// A signal at a time: its value, its LAST_VALUE, and its LAST_EVENT, which is TIME'HIGH where it had no event (IEEE 1076-1993, 14.1).
fn input_of(signal: Signal, now: Time) -> Input
    ensures { result ≡ input now signal }
{
    let age = match signal.last_event {
        Some(time) => now.saturating_sub(time),
        None => TIME_HIGH,
    };
    Input {
        value: signal.value,
        last: signal.last_value,
        age,
    }
}

/// Sets what bits are at a time, where the signals of theirs have these numbers. It takes no memory.
pub(crate) fn set_inputs(inputs: &mut Inputs, wires: &[usize], signals: &Signals, now: Time)
    requires one_each { length wires.now ≡ length inputs.old }
    requires few { length inputs.old < 2 ^ 32 }
    requires there { All (λ signal. signal < length signals.now.signals) wires.now }
    requires few_signals { length signals.now.signals < 2 ^ 31 }
    ensures { inputs.new ≡ seen now signals.now.signals wires.now }
{
    for (bit, signal) in wires.iter().enumerate() {
        let input = input_of(signals.signal(*signal as u32), now);
        inputs.set(bit as u32, input.value, input.last, input.age);
    }
}
