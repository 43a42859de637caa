/// Who runs the tasks of a run: one thread, threads over a queue under a lock, or threads that steal.
#[derive(Clone, Copy, Debug)]
pub enum Pool {
    Serial,
    Locked,
    Steal,
}

/// What a command line asks for: the command and its options, a default where an option isn't given.
#[derive(Clone, Copy, Debug)]
pub enum Ask {
    /// Print the program's canonical text.
    Check,
    /// Report the program's choices.
    Choices,
    /// Run a transform: 1 to 64 workers, a depth of 0 to 64, a grain of 1 to 1048576 cells.
    Run {
        workers: u32,
        depth: u32,
        grain: u64,
        pool: Pool,
        trace: bool,
    },
    /// Tune a transform up to a size of 1 to 1048576.
    Tune {
        up_to: u64,
    },
    /// Run the demonstration: any seed, a size of 1 to 256, 1 to 64 workers.
    Demo {
        seed: u32,
        size: u64,
        workers: u32,
    },
}
