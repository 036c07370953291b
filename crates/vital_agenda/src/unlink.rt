//! Linking and unlinking entries of one driver.

ghost use Rattle.std.specs.Prelude.{◌≡◌, [], ◌∷◌, ◌++◌, None, Some, nat_lt, filter, map, slice_get, OnOk, OnErr, if◌then◌else◌};
ghost use Rattle.std.specs.Map.{keys_of};
ghost use Rattle.std.specs.Option.{option_and_then, option_map_or};
ghost use Rattle.vital_agenda.specs.declared.stay.Stay.TheVariants.{After};
ghost use Rattle.vital_agenda.specs.Queues.{IsChain, IsChainAfter, Falls, IsTimeOf, KeepsOthers, chain_of, latest, entry_of, is_after, is_before, is_up_to, later_than, without, with_none_before, rising, last_staying};

use crate::entry::{Entry, Queue};
use crate::stay::Stay;
use crate::walk::walk;
use std::alloc::AllocError;
use vital_base::Time;

/// Puts an entry in at a time, in place of one that the driver had there. Where memory runs out, all is as before.
pub(crate) fn put(
    queue: &mut Queue,
    driver: u32,
    time: Time,
    entry: Entry,
) -> Result<(), AllocError>
    ensures ok { OnOk result (chain_of driver queue.new.entries ≡ filter (is_after time) (chain_of driver queue.old.entries)
        ++ ((time, driver), entry) ∷ filter (is_before time) (chain_of driver queue.old.entries)) }
    ensures others { KeepsOthers driver queue.old.entries queue.new.entries }
    ensures err { OnErr result (queue.new.entries ≡ queue.old.entries) }
{
    queue.insert((time, driver), entry)?;
    Ok(())
}

/// Unlinks a driver's entry at a time, and takes its key out. The answer is the time of the one before it.
fn unlink(queue: &mut Queue, driver: u32, time: Time) -> Option<Time>
    requires { Falls (chain_of driver queue.old.entries) }
    ensures before { result ≡ option_and_then (λ entry. entry.before) (entry_of time (chain_of driver queue.old.entries)) }
    ensures chain { chain_of driver queue.new.entries ≡ without time (chain_of driver queue.old.entries) }
    ensures others { KeepsOthers driver queue.old.entries queue.new.entries }
{
    match queue.remove(&(time, driver)) {
        Some(entry) => entry.before,
        None => None,
    }
}

/// Unlinks a driver's entries from the last one back, as long as they are after a time.
pub(crate) fn unlink_after(queue: &mut Queue, driver: u32, last: Option<Time>, time: Time)
    requires falls { Falls (chain_of driver queue.old.entries) }
    requires chain { IsChainAfter time last (chain_of driver queue.old.entries) }
    ensures chain { chain_of driver queue.new.entries ≡ filter (is_up_to time) (chain_of driver queue.old.entries) }
    ensures others { KeepsOthers driver queue.old.entries queue.new.entries }
{
    let mut last = last;
    while let Some(late) = later(last, time) {
        last = unlink(queue, driver, late);
    }
}

/// A time that may be missing, where it is after another.
fn later(last: Option<Time>, time: Time) -> Option<Time>
    ensures { result ≡ option_and_then (λ late. if nat_lt time late then Some late else None) last }
{
    match last {
        Some(late) if time < late => Some(late),
        _ => None,
    }
}

/// Unlinks a driver's entry at a time that may be missing, and all that precede it.
pub(crate) fn unlink_back(queue: &mut Queue, driver: u32, last: Option<Time>)
    requires falls { Falls (chain_of driver queue.old.entries) }
    requires chain { IsChain (option_map_or (λ time. filter (is_up_to time) (chain_of driver queue.old.entries)) last []) }
    requires there { IsTimeOf last (chain_of driver queue.old.entries) }
    ensures chain { chain_of driver queue.new.entries ≡ later_than last (chain_of driver queue.old.entries) }
    ensures others { KeepsOthers driver queue.old.entries queue.new.entries }
{
    let mut last = last;
    while let Some(time) = last {
        last = unlink(queue, driver, time);
    }
}

/// Unlinks the first entry of the queue, which is a driver's at a time, and takes its key out. The answer is the time of
/// the driver's last entry then, or none.
pub(crate) fn unlink_first(
    queue: &mut Queue,
    driver: u32,
    time: Time,
    last: Option<Time>,
) -> Option<Time>
    requires first { slice_get (keys_of queue.old.entries) 0 ≡ Some (time, driver) }
    requires chain { IsChain (chain_of driver queue.old.entries) }
    requires last { last ≡ latest (chain_of driver queue.old.entries) }
    ensures chain { IsChain (chain_of driver queue.new.entries) }
    ensures last { result ≡ latest (chain_of driver queue.new.entries) }
    ensures stays { rising (chain_of driver queue.new.entries) ≡ last_staying (After time) (rising (chain_of driver queue.old.entries)) }
    ensures others { KeepsOthers driver queue.old.entries queue.new.entries }
{
    let kept = walk(queue, driver, last, Stay::After(time)).kept;
    let _ = queue.pop_first();
    make_first(queue, driver, kept);
    kept.and(last)
}

/// Lets no entry precede the one of a driver at a time that may be missing.
pub(crate) fn make_first(queue: &mut Queue, driver: u32, time: Option<Time>)
    requires { Falls (chain_of driver queue.old.entries) }
    ensures chain { let old = chain_of driver queue.old.entries in
        chain_of driver queue.new.entries ≡ option_map_or (λ time. map (with_none_before time) old) time old }
    ensures others { KeepsOthers driver queue.old.entries queue.new.entries }
{
    let Some(time) = time else {
        return;
    };
    if let Some(entry) = queue.get_mut(&(time, driver)) {
        entry.before = None;
    }
}
