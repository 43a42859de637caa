use std::collections::LinkedList;

/// What the seat of a Job knows of its task: how many cells it has written, whether it has stored the value of the next one,
/// its finish number, whether this number is stored and then filed, the successors that it has released, and what the last
/// release has left of a count. No value of it is made.
pub struct TaskView {
    pub task: u32,
    pub written: u64,
    pub stored: bool,
    pub number: Option<u64>,
    pub kept: bool,
    pub filed: bool,
    pub released: LinkedList<u32>,
    pub left: u64,
}

/// What a seat at the table knows: the task that it runs; the turns that it holds besides, of tasks that nobody has begun; the
/// tasks that it has opened; the finished tasks that it has taken in, with their numbers; the filed count that it has
/// seen, and how often it has looked. No value of it is made.
pub struct View {
    pub job: Option<TaskView>,
    pub turns: LinkedList<u32>,
    pub opened: LinkedList<u32>,
    pub ran: LinkedList<(u32, u64)>,
    pub seen: u64,
    pub looks: u64,
}
