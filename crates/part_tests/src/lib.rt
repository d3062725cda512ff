//! Tests of the parts of a channel, one by one: stacks, actors, promises, arrived items, values and
//! histories.
#![tactic(auto)]

#[cfg(test)]
mod actors;
#[cfg(test)]
mod arrived;
#[cfg(test)]
mod checks;
#[cfg(test)]
mod histories;
#[cfg(test)]
mod promises;
#[cfg(test)]
mod stacks;
#[cfg(test)]
mod value_rows;
#[cfg(test)]
mod values;
