//! Reading a stimulus file.

ghost use Rattle.std.specs.Prelude.{◌≡◌, ◌<◌, ◌≤◌, ◌^◌, length, map, true, None, IfOk, IfSome, All};
ghost use Rattle.std.specs.List.Sorted.{IsNonDecreasing};
ghost use Rattle.vital_stim.specs.Stimuli.{Answers, stim, lent, Fits};

use crate::builder::StimuliBuilder;
use crate::entry::entry_after;
use crate::fault::{StimError, StimFault};
use crate::fields::is_passed_over;
use crate::lines::Lines;
use crate::stimuli::Stimuli;
use std::alloc::Global;
use vital_base::Ports;

/// The stimuli that a text states, or its first line with a fault and the first test that this line fails.
///
/// A line has four fields parted by blanks (spaces, tabs and CR): 1 to 19 digits, a unit of time, a port and a level.
/// LF ends a line, and the last line may lack it. A line with no field is passed over, and so is one whose first field
/// begins with `#`. A port is a basic identifier (IEEE 1076-1993, 13.3.1), alone or followed at once by a plain decimal
/// in parentheses; its name is folded to small letters.
///
/// Where ports are given, they are the ports of the stimuli, and a line names the first of them that has its name, which
/// must be an input. Names of given ports stand in small letters, that of a vector's bit with its index, as `data(3)`.
/// Where none are given, the ports are those that the lines name, in order of first sight, each an input with the level
/// U at first.
pub fn read_stim(alloc: Global, text: &[u8], ports: Option<&Ports>) -> Result<Stimuli, StimError>
    requires short { length text.now ≤ 16_777_216 }
    requires few { IfSome ports (λ given. length given.now < 2 ^ 32) }
    // The answer is the definition's, unless memory runs out.
    ensures answer { Answers result (stim text.now (lent ports.entry)) }

    // Given ports are the ports; where none are given, each port is an input.
    ensures given { IfOk result (λ found. IfSome ports.entry (λ given. found.ports ≡ given.now)) }
    ensures inputs { IfOk result (λ found. ports.entry ≡ None → All (λ port. port.input ≡ true) found.ports) }
    // Each line's port is there and is an input, no time is above 2^60 fs, and the times do not fall.
    ensures fit { IfOk result (λ found. All (Fits found) found.lines) }
    ensures few { IfOk result (λ found. length found.ports < 2 ^ 32) }
    ensures in_order { IfOk result (λ found. IsNonDecreasing (map (λ line. line.time) found.lines)) }
{
    read(alloc, text, ports)
}

fn read<'a>(alloc: Global, text: &'a [u8], ports: Option<&'a Ports>) -> Result<Stimuli, StimError>
    requires short { length text.now ≤ 16_777_216 }
    requires few { IfSome ports (λ given. length given.now < 2 ^ 32) }
    ensures { Answers result (stim text.now (lent ports.entry)) }
{
    let mut builder = StimuliBuilder::new(alloc, ports)?;
    let mut latest = 0;
    let mut number = 0;
    for line in Lines::new(text) {
        number += 1;
        if is_passed_over(line) {
            continue;
        }
        match entry_after(latest, line) {
            Ok(entry) => match builder.push(alloc, &entry)? {
                Ok(()) => latest = entry.time,
                Err(why) => return Err(StimError::Fault(StimFault { line: number, why })),
            },
            Err(why) => return Err(StimError::Fault(StimFault { line: number, why })),
        }
    }
    Ok(builder.build(alloc)?)
}
