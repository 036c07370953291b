//! Lists of processes, one for each signal.

ghost use Rattle.std.specs.Prelude.{◌≡◌, ◌+◌, [], IfOk, OnOk, length, map, replicate, sum_by};
ghost use Rattle.vital_kernel.specs.Lists.{AreListed, listening, with_process};

use std::alloc::{AllocError, Global};
use vital_base::List;

/// A number that fits. It fails as without memory where it is too large.
pub fn fitting(number: usize) -> Result<u32, AllocError>
    ensures { IfOk result (λ found. found ≡ number) }
{
    if number > u32::MAX as usize {
        return Err(AllocError);
    }
    Ok(number as u32)
}

/// Lists a process for a signal, if there is one of this number.
fn put(lists: &mut Vec<Vec<u32>>, process: u32, number: u32) -> Result<(), AllocError>
    ensures { OnOk result (map (λ list. list.items) lists.new.items ≡ with_process process (map (λ list. list.items) lists.old.items) number) }
{
    if (number as usize) < lists.len() {
        lists[number as usize].push(process)?;
    }
    Ok(())
}

/// Lists a process for each of the signals to which it is sensitive.
fn listen(lists: &mut Vec<Vec<u32>>, process: u32, sensitivity: &[u32]) -> Result<(), AllocError>
    ensures { OnOk result (map (λ list. list.items) lists.new.items ≡ listening process (map (λ list. list.items) lists.old.items) sensitivity.now) }
{
    for number in sensitivity {
        put(lists, process, *number)?;
    }
    Ok(())
}

/// So many empty lists.
fn empty_lists(alloc: Global, count: usize) -> Result<Vec<Vec<u32>>, AllocError>
    ensures { IfOk result (λ lists. map (λ list. list.items) lists.items ≡ replicate count []) }
{
    let mut lists = Vec::new(alloc);
    for _ in 0..count {
        lists.push(Vec::new(alloc))?;
    }
    Ok(lists)
}

/// For each of so many signals the processes that are sensitive to it, where these are the signals to which each process is. It takes time
/// in proportion to both.
pub fn lists_of(
    alloc: Global,
    signals: usize,
    sensitivities: &[List<u32>],
) -> Result<Vec<Vec<u32>>, AllocError>
    ensures all { IfOk result (λ lists. length lists.items ≡ signals) }
    ensures listed { IfOk result (λ lists. AreListed sensitivities.now (map (λ list. list.items) lists.items)) }
{
    let mut lists = empty_lists(alloc, signals)?;
    for (process, sensitivity) in sensitivities.iter().enumerate() {
        listen(&mut lists, fitting(process)?, sensitivity.as_slice())?;
    }
    Ok(lists)
}

/// A count with so many more. It fails as without memory where there are too many.
fn added(count: u32, more: usize) -> Result<u32, AllocError>
    ensures { IfOk result (λ sum. sum ≡ count + more) }
{
    fitting(count as usize + fitting(more)? as usize)
}

/// How many places lists have. It fails as without memory where there are too many.
pub fn places(lists: &[Vec<u32>]) -> Result<u32, AllocError>
    ensures { IfOk result (λ count. count ≡ sum_by (λ list. length list) (map (λ list. list.items) lists.now)) }
{
    let mut count = 0;
    for list in lists {
        count = added(count, list.len())?;
    }
    Ok(count)
}
