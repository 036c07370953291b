//! Bits that stand side by side.

ghost use Rattle.std.specs.Prelude.{◌≡◌, ◌++◌, IfOk, OnOk};
ghost use Rattle.vital_connections.specs.Objects.{lent, whole_bits};
ghost use Rattle.vital_connections.specs.Runs as spec;

use crate::extent::length_of;
use crate::object::Object;
use std::alloc::{AllocError, Global};
use vital_naturals::Natural;

/// Bits of a port or a signal that stand side by side.
#[derive(Drop)]
pub struct Run {
    /// The number of the port or signal.
    pub object: usize,
    /// How far the first bit is from the left.
    pub first: Natural,
    /// How far the bit behind the last one is from the left.
    pub end: Natural,
}

/// The bits from one on and before another one, if there are some.
pub(crate) fn run_between(object: usize, first: Natural, end: Natural) -> Option<Run>
    ensures { spec.bits_of_option result ≡ spec.bits_between object first end }
{
    if first.is_less(&end) {
        Some(Run { object, first, end })
    } else {
        None
    }
}

/// All bits of a port or signal, if there are some.
pub fn whole_run(
    alloc: Global,
    number: usize,
    object: &Object<'_>,
) -> Result<Option<Run>, AllocError>
    ensures { IfOk result (λ run. spec.bits_of_option run ≡ whole_bits (number, lent object.now)) }
{
    let end = length_of(alloc, object.shape)?;
    Ok(run_between(number, Natural::zero(alloc), end))
}

/// Puts a run at the end, if there is one.
pub fn put_run(runs: &mut Vec<Run>, run: Option<Run>) -> Result<(), AllocError>
    ensures { OnOk result (spec.bits_of_runs runs.new.items ≡ spec.bits_of_runs runs.old.items ++ spec.bits_of_option run) }
{
    if let Some(run) = run {
        runs.push(run)?;
    }
    Ok(())
}
