/// What comes of a turn: a task was run; or nothing was found to do; or all tasks are finished.
#[derive(Clone, Copy, Debug, PartialEq, Eq)]
pub enum Turn {
    Ran(u32),
    Idle,
    Done,
}
