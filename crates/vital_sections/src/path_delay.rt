//! Calls of path delays.

ghost use Rattle.std.specs.Prelude.{◌≡◌, IfOk};
ghost use Rattle.vital_sections.specs.Given.{lent};
ghost use Rattle.vital_sections.specs.PathDelays as spec;

use crate::given::GivenCall;
use sqlite_items::Items;
use std::alloc::AllocError;
use vital_actuals::Path;
use vital_base::Name;
use vital_calls::ActualForm;
use vital_operands::{BooleanExpr, DelayExpr, LevelExpr};
use vital_timing::{DelayType, GlitchMode};

/// A call of a path delay (IEEE 1076.4, VitalPathDelay, VitalPathDelay01 and VitalPathDelay01Z). Names of signals, headers and severities
/// have no effect.
#[derive(Drop)]
pub struct PathDelay {
    /// The type of its delays, which says which of the three is called.
    pub delay_type: DelayType,
    /// The out, inout or buffer port that it drives.
    pub out_signal: Name,
    /// The variable that keeps what it knows of glitches.
    pub glitch_data: Name,
    /// What it drives the port with.
    pub out_temp: LevelExpr,
    /// The paths that lead to the port, whose delays are of its type.
    pub paths: Items<Path>,
    /// The delay where no path is enabled; 0 for every change where none is given.
    pub default_delay: DelayExpr,
    /// How glitches are treated: OnEvent where it is not given.
    pub mode: GlitchMode,
    /// Whether a glitch makes the port unknown: TRUE where it is not given.
    pub x_on: BooleanExpr,
    /// Whether a message of a glitch is made: TRUE where it is not given.
    pub msg_on: BooleanExpr,
}

/// A call that has these four: its port, its variable, its level and its paths.
fn path_delay_with(
    call: &GivenCall<'_>,
    delay_type: DelayType,
    out_signal: Name,
    glitch_data: Name,
    out_temp: LevelExpr,
    paths: Items<Path>,
) -> Result<PathDelay, AllocError>
    ensures { IfOk result (λ delay. delay ≡ spec.path_delay_with (lent call.now) delay_type out_signal glitch_data out_temp paths) }
{
    Ok(PathDelay {
        delay_type,
        out_signal,
        glitch_data,
        out_temp,
        paths,
        default_delay: call.delay(b"defaultdelay", delay_type)?,
        mode: call.mode()?,
        x_on: call.truth(b"xon")?,
        msg_on: call.truth(b"msgon")?,
    })
}

/// A call with its port, its variable and its level.
fn with_paths(
    call: &GivenCall<'_>,
    delay_type: DelayType,
    out_signal: Name,
    glitch_data: Name,
    out_temp: LevelExpr,
) -> Result<Option<PathDelay>, AllocError>
    ensures { IfOk result (λ delay. delay ≡ spec.with_paths (lent call.now) delay_type out_signal glitch_data out_temp) }
{
    let Some(paths) = call.paths(delay_type)? else {
        return Ok(None);
    };
    let delay = path_delay_with(call, delay_type, out_signal, glitch_data, out_temp, paths)?;
    Ok(Some(delay))
}

/// A call of the path delay whose delays are of a type. It takes time in proportion to the call.
pub fn path_delay(
    call: &GivenCall<'_>,
    delay_type: DelayType,
) -> Result<Option<PathDelay>, AllocError>
    ensures { IfOk result (λ delay. delay ≡ spec.path_delay (lent call.now) delay_type) }
{
    let Some(out_signal) = call.name(b"outsignal", ActualForm::OutPort)? else {
        return Ok(None);
    };
    let Some(glitch_data) = call.name(b"glitchdata", ActualForm::GlitchData)? else {
        return Ok(None);
    };
    let Some(out_temp) = call.level(b"outtemp")? else {
        return Ok(None);
    };
    with_paths(call, delay_type, out_signal, glitch_data, out_temp)
}
