ghost use Rattle.std.specs.Prelude.{◌≡◌, ◌+◌, ◌^◌, ◌<◌, ◌↔◌, false, if◌then◌else◌, IsSome, IsTrue, None, Some, is_ok, length, slice_index_or, slice_set};
ghost use Rattle.pb_core.specs.Cores.{CanFinish, CanGive, CanStart, Changes, ended, freed, handed, started, untouched};

use crate::event::NotEnabled;
use crate::progress::{Progress, is_hand, progress_of};

/// Whether a hand may write a cell of this task that is written or not.
pub(crate) fn can_write(at: Progress, hand: u32, written: bool) -> bool
    ensures { IsTrue result ↔ ((at.runner ≡ Some hand) × (at.number ≡ None) × (written ≡ false)) }
{
    if written {
        return false;
    }
    if at.number.is_some() {
        return false;
    }
    is_hand(at.runner, hand)
}

/// Whether a hand may release successors of this task.
pub(crate) fn can_release(at: Progress, hand: u32) -> bool
    ensures { IsTrue result ↔ (IsSome at.number × (at.runner ≡ Some hand)) }
{
    if at.number.is_none() {
        return false;
    }
    is_hand(at.runner, hand)
}

/// A hand starts a task.
pub(crate) fn start_task(tasks: &mut Vec<Progress>, hand: u32, task: u32) -> Result<(), NotEnabled>
    ensures { Changes (CanStart hand) (started hand) task tasks.old.items result tasks.new.items }
{
    let mut at = progress_of(tasks, task);
    if !is_hand(at.holder, hand) {
        return Err(NotEnabled);
    }
    if at.runner.is_some() {
        return Err(NotEnabled);
    }
    at.runner = Some(hand);
    tasks[task as usize] = at;
    Ok(())
}

/// A hand finishes a task, whose number is that of the tasks that were finished before.
pub(crate) fn finish_task(
    tasks: &mut Vec<Progress>,
    finished: &mut u64,
    hand: u32,
    task: u32,
) -> Result<(), NotEnabled>
    requires { finished.old + 1 < 2 ^ 64 }
    ensures tasks { Changes (CanFinish hand) (ended finished.old) task tasks.old.items result tasks.new.items }
    ensures finished { finished.new ≡ (if is_ok result then finished.old + 1 else finished.old) }
{
    let mut at = progress_of(tasks, task);
    if !is_hand(at.runner, hand) {
        return Err(NotEnabled);
    }
    if at.number.is_some() {
        return Err(NotEnabled);
    }
    at.number = Some(*finished);
    tasks[task as usize] = at;
    *finished += 1;
    Ok(())
}

/// A hand gives a task to another.
pub(crate) fn give_task(
    tasks: &mut Vec<Progress>,
    giver: u32,
    taker: u32,
    task: u32,
) -> Result<(), NotEnabled>
    ensures { Changes (CanGive giver) (handed taker) task tasks.old.items result tasks.new.items }
{
    let mut at = progress_of(tasks, task);
    if !is_hand(at.holder, giver) {
        return Err(NotEnabled);
    }
    if at.runner.is_some() {
        return Err(NotEnabled);
    }
    if at.given {
        return Err(NotEnabled);
    }
    at.holder = Some(taker);
    at.given = true;
    tasks[task as usize] = at;
    Ok(())
}

/// A hand releases a task.
pub(crate) fn release_task(tasks: &mut Vec<Progress>, hand: u32, task: u32)
    requires task { task < length tasks.old.items }
    requires count { 0 < (slice_index_or tasks.old.items task untouched).count }
    ensures { tasks.new.items ≡ slice_set tasks.old.items task (freed hand (slice_index_or tasks.old.items task untouched)) }
{
    let mut at = progress_of(tasks, task);
    at.count -= 1;
    if at.count == 0 {
        at.holder = Some(hand);
    }
    tasks[task as usize] = at;
}
