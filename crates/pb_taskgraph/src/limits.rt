/// The most cells of a run, the input cells among them.
pub const MOST_CELLS: u64 = 4_194_304;

/// The most tasks of a run.
pub const MOST_TASKS: usize = 262_144;

/// The most links of a run: pairs of a task and a predecessor.
pub const MOST_LINKS: u64 = 8_388_608;
