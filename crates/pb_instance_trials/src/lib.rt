//! Trials of what a run asks of an accepted program: entering, laying out, frames and bodies; of a run that is driven by hand; and
//! of the lines that runs may end with; compared with answers from outside. No code, tests alone.
#![tactic(auto)]

#[cfg(test)]
mod bodies;
#[cfg(test)]
mod costs;
#[cfg(test)]
mod counts;
#[cfg(test)]
mod driven;
#[cfg(test)]
mod entering;
#[cfg(test)]
mod frames;
#[cfg(test)]
mod layouts;
#[cfg(test)]
mod lines;
#[cfg(test)]
mod places;
#[cfg(test)]
mod plans;
#[cfg(test)]
mod programs;
#[cfg(test)]
mod steps;
