use crate::judge::Cost;
use pb_program::Config;

/// A question to the judge, with its answer.
#[derive(Drop)]
pub struct Asked {
    pub size: u64,
    pub config: Config,
    pub cost: Cost,
}

/// All that was asked, in order.
#[derive(Drop)]
pub struct Journal {
    pub asked: Vec<Asked>,
}
