//! Tests of runs whose sides run at the same time (docs/threads.md): an exchange by hand, the gate, and
//! whole runs, again and again.
#![tactic(auto)]

#[cfg(test)]
mod crossing;
#[cfg(test)]
mod given;
#[cfg(test)]
mod pairs;
#[cfg(test)]
mod printouts;
#[cfg(test)]
mod runs;
