ghost use Rattle.std.specs.Prelude.{◌≡◌, ◌↔◌, ◌<◌, IsTrue, Some, length, slice_index_or};
ghost use Rattle.pb_core.specs.Cores.{untouched};

/// What a task has come to: how many releases it waits for, the hand that holds it, the hand that has started it, its finish
/// number, and whether it was given.
#[derive(Clone, Copy, Debug)]
pub struct Progress {
    pub count: u32,
    pub holder: Option<u32>,
    pub runner: Option<u32>,
    pub number: Option<u64>,
    pub given: bool,
}

/// The progress of a task by its number; past the tasks that of one that nobody has touched.
pub(crate) fn progress_of(tasks: &[Progress], task: u32) -> Progress
    ensures { result ≡ slice_index_or tasks.now task untouched }
{
    match tasks.get(task as usize) {
        Some(progress) => *progress,
        None => Progress {
            count: 0,
            holder: None,
            runner: None,
            number: None,
            given: false,
        },
    }
}

/// Whether this is the hand.
pub(crate) fn is_hand(holder: Option<u32>, hand: u32) -> bool
    ensures { IsTrue result ↔ (holder ≡ Some hand) }
{
    match holder {
        Some(holder) => holder == hand,
        None => false,
    }
}
