//! What path delays send and keep.

ghost use Rattle.std.specs.Prelude.{◌≤◌, ◌<◌, ◌^◌, IfSome, IsTrue};
ghost use Rattle.vital_path_delay.specs.Kept.{HasSmallTimes};
ghost use Rattle.vital_path_delay.specs.Within.{IsWithin};

use super::delays::{delay_of, path_of};
use super::words::{Said, letter, level, lines_of, number, word};
use std::alloc::{AllocError, Global};
use vital_base::{Kind, Time};
use vital_logic::Level;
use vital_path_delay::{GlitchData, GlitchOut, Path, Send, glitch, path_delay, path_start};
use vital_row_files::GivenFile;
use vital_timing::{Delay, GlitchMode};

/// The modes by their names.
const MODES: [(&str, GlitchMode); 4] = [
    ("OnEvent", GlitchMode::OnEvent),
    ("OnDetect", GlitchMode::OnDetect),
    ("Inertial", GlitchMode::Inertial),
    ("Transport", GlitchMode::Transport),
];

/// What a view says of path delays.
pub fn say(alloc: Global, words: &[&str], files: &[GivenFile]) -> Said {
    match word(words, 0) {
        "glitch" => glitches(alloc, words),
        "call" => called(alloc, words, files),
        _ => first(alloc),
    }
}

/// What is kept, by the words behind the first: SchedTime, GlitchTime, SchedValue and LastValue.
fn kept_of(words: &[&str]) -> Option<GlitchData>
    ensures { IfSome result HasSmallTimes }
{
    let sched_time = number(word(words, 1))?;
    let glitch_time = number(word(words, 2))?;
    let sched_value = level(word(words, 3))?;
    let last_value = level(word(words, 4))?;
    if sched_time < 2_305_843_009_213_693_952 && glitch_time < 2_305_843_009_213_693_952 {
        Some(GlitchData {
            sched_time,
            glitch_time,
            sched_value,
            last_value,
        })
    } else {
        None
    }
}

/// A time and a value, by the words behind those of what is kept.
fn change_of(words: &[&str]) -> Option<(Time, Level)>
    ensures { IfSome result (λ change. change.0 ≤ 2 ^ 60) }
{
    let now = number(word(words, 5))?;
    let value = level(word(words, 6))?;
    if now <= 1_152_921_504_606_846_976 {
        Some((now, value))
    } else {
        None
    }
}

/// A delay, by the word behind those.
fn delay_behind(words: &[&str]) -> Option<Time>
    ensures { IfSome result (λ delay. delay < 2 ^ 60) }
{
    let delay = number(word(words, 7))?;
    if delay < 1_152_921_504_606_846_976 {
        Some(delay)
    } else {
        None
    }
}

/// Says an assignment.
fn put_send(text: &mut String, send: &Send) -> Result<(), AllocError> {
    let kind = match send.kind {
        Kind::Inertial => "inertial",
        Kind::Transport => "transport",
    };
    write!(text, "{kind} {} after {}", letter(send.value), send.delay)?;
    Ok(())
}

/// Says what is sent.
fn put_out(text: &mut String, out: &GlitchOut) -> Result<(), AllocError> {
    if out.glitched {
        text.push_str("glitch, ")?;
    }
    put_send(text, &out.first)?;
    if let Some(second) = &out.second {
        text.push_str(", ")?;
        put_send(text, second)?;
    }
    Ok(())
}

/// Says what is kept.
fn put_kept(text: &mut String, kept: &GlitchData) -> Result<(), AllocError> {
    let (value, last) = (letter(kept.sched_value), letter(kept.last_value));
    write!(
        text,
        "kept {} {} {value} {last}\n",
        kept.sched_time, kept.glitch_time
    )?;
    Ok(())
}

/// What is kept before the first call.
fn first(alloc: Global) -> Said {
    let mut text = String::new(alloc);
    put_kept(&mut text, &GlitchData::new())?;
    Ok(Some(text))
}

/// A line of what a mode sends and keeps.
fn put_glitch(
    text: &mut String,
    mode: (&str, GlitchMode),
    x_on: bool,
    before: GlitchData,
    change: (Time, Level),
    delay: Time,
) -> Result<(), AllocError>
    requires kept { HasSmallTimes before }
    requires now { change.0 ≤ 2 ^ 60 }
    requires delay { delay < 2 ^ 60 }
{
    let (now, value) = change;
    let mut kept = before;
    let out = glitch(&mut kept, mode.1, x_on, now, value, delay);
    let with = if x_on { "with X" } else { "without X" };
    write!(text, "{} {with}: ", mode.0)?;
    put_out(text, &out)?;
    text.push_str("; ")?;
    put_kept(text, &kept)
}

/// For each mode, with X and without, what is sent and kept.
fn glitches(alloc: Global, words: &[&str]) -> Said {
    let Some(kept) = kept_of(words) else {
        return Ok(None);
    };
    let Some(change) = change_of(words) else {
        return Ok(None);
    };
    let Some(delay) = delay_behind(words) else {
        return Ok(None);
    };
    let mut text = String::new(alloc);
    for mode in MODES {
        put_glitch(&mut text, mode, true, kept, change, delay)?;
        put_glitch(&mut text, mode, false, kept, change, delay)?;
    }
    Ok(Some(text))
}

/// The path and the default of a call: the first two lines of its file.
fn path_and_default(
    alloc: Global,
    files: &[GivenFile],
) -> Result<Option<(Path, Delay)>, AllocError> {
    let lines = lines_of(alloc, files, "paths")?;
    Ok(match lines.as_slice() {
        [path, default] => both_of(path.as_slice(), default.as_slice()),
        _ => None,
    })
}

fn both_of(path: &[&str], default: &[&str]) -> Option<(Path, Delay)> {
    let path = path_of(path)?;
    let default = delay_of(default.get(1..).unwrap_or(&[]))?;
    Some((path, default))
}

/// Whether each time of a delay is at most 2^50 fs.
fn is_small(delay: &Delay) -> bool
    ensures { IsTrue result → IsWithin (2 ^ 50) delay.now }
{
    let most = 1_125_899_906_842_624;
    match *delay {
        Delay::One(time) => time <= most,
        Delay::Two { tr01, tr10 } => tr01 <= most && tr10 <= most,
        Delay::Six { .. } => false,
    }
}

/// Whether a call ends at once; if not, what it sends; and what is kept. The mode is OnEvent, with X.
fn called(alloc: Global, words: &[&str], files: &[GivenFile]) -> Said {
    let Some(kept) = kept_of(words) else {
        return Ok(None);
    };
    let Some(change) = change_of(words) else {
        return Ok(None);
    };
    let Some((path, default)) = path_and_default(alloc, files)? else {
        return Ok(None);
    };
    if !is_small(&path.delay) || !is_small(&default) {
        return Ok(None);
    }
    said_of_call(alloc, kept, path, &default, change)
}

fn said_of_call(
    alloc: Global,
    before: GlitchData,
    path: Path,
    default: &Delay,
    change: (Time, Level),
) -> Said
    requires kept { HasSmallTimes before }
    requires path { IsWithin (2 ^ 50) path.delay }
    requires default { IsWithin (2 ^ 50) default.now }
    requires now { change.0 ≤ 2 ^ 60 }
{
    let (now, value) = change;
    let mut kept = before;
    let mut text = String::new(alloc);
    if path_start(&kept, now, value) {
        text.push_str("ends\n")?;
    }
    let paths = [path];
    let mode = GlitchMode::OnEvent;
    if let Some(out) = path_delay(&mut kept, &paths, default, mode, true, now, value) {
        put_out(&mut text, &out)?;
        text.push('\n')?;
    }
    put_kept(&mut text, &kept)?;
    Ok(Some(text))
}
