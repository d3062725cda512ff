//! Tests of size: what an end keeps as linked nodes, with 300,000 and 600,000 of them in every shape. A list that is searched
//! from its beginning, or closed up after each that leaves, does not end in the time of a test.
#![tactic(auto)]

#[cfg(test)]
mod actors;
#[cfg(test)]
mod arrived;
#[cfg(test)]
mod promises;
