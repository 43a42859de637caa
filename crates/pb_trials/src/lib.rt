//! Trials: calls of the lower crates on small cases, compared with answers from outside. No code, tests alone.
#![tactic(auto)]

#[cfg(test)]
mod accepts;
#[cfg(test)]
mod bounds;
#[cfg(test)]
mod configs;
#[cfg(test)]
mod forms;
#[cfg(test)]
mod grids;
#[cfg(test)]
mod layers;
#[cfg(test)]
mod linear;
#[cfg(test)]
mod matrix;
#[cfg(test)]
mod names;
#[cfg(test)]
mod programs;
#[cfg(test)]
mod ranks;
#[cfg(test)]
mod seeds;
#[cfg(test)]
mod tokens;
#[cfg(test)]
mod tuner;
#[cfg(test)]
mod values;
#[cfg(test)]
mod words;
