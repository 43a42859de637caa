/// Where a worker passes before it runs a task. A test's gate may hold a task until another has entered.
pub trait Gate: Sync {
    /// A worker is about to run this task.
    fn enter(&self, task: u32);
}

/// A gate that holds nobody.
#[derive(Clone, Copy, Debug)]
pub struct OpenGate;

impl Gate for OpenGate {
    fn enter(&self, _task: u32) {}
}
