//! Trials of runs: small works whose outcomes are known, run in each way that there is; and what runs stand on.
#![tactic(auto)]

#[cfg(test)]
mod boards;
#[cfg(test)]
mod cells;
pub mod given;
#[cfg(test)]
mod links;
#[cfg(test)]
mod machine;
#[cfg(test)]
mod pools;
#[cfg(test)]
mod serial;
pub mod sums;
#[cfg(test)]
mod traces;
#[cfg(test)]
mod walks;
