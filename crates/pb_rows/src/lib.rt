//! Rows that go through the top call, by exact bytes: words, files and failing devices, and what the two
//! sinks hold in the end; and what `pb_alone` answers, with the names that it asks of the shelf.
#![tactic(auto)]

#[cfg(test)]
mod alone;
#[cfg(test)]
mod blocks;
#[cfg(test)]
mod bodies;
#[cfg(test)]
mod calls;
#[cfg(test)]
mod check;
#[cfg(test)]
mod choices;
#[cfg(test)]
mod chosen;
#[cfg(test)]
mod counts;
#[cfg(test)]
mod demo;
#[cfg(test)]
mod devices;
#[cfg(test)]
mod documented;
#[cfg(test)]
mod examples;
#[cfg(test)]
mod gallery;
#[cfg(test)]
mod handed;
#[cfg(test)]
mod large;
#[cfg(test)]
mod plans;
#[cfg(test)]
mod precedence;
#[cfg(test)]
mod refusals;
#[cfg(test)]
mod run;
#[cfg(test)]
mod segments;
#[cfg(test)]
mod serial;
#[cfg(test)]
mod threads;
#[cfg(test)]
mod traces;
#[cfg(test)]
mod traps;
#[cfg(test)]
mod tuned;
#[cfg(test)]
mod words;
