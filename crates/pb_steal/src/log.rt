use std::collections::LinkedList;

/// What one who pushes on a deque or takes from it has done there: the tasks that it has pushed, and how many it has taken. No
/// value of it is made.
pub struct Log {
    pub pushed: LinkedList<u32>,
    pub took: u64,
}
