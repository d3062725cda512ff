//! Tests of the parts of one end of a channel: its stack, promises, names and output, its packets,
//! and what it does with values and messages of a schema.
#![tactic(auto)]

#[cfg(test)]
mod checks;
#[cfg(test)]
mod closings;
#[cfg(test)]
mod names;
#[cfg(test)]
mod outputs;
#[cfg(test)]
mod packets;
#[cfg(test)]
mod parts;
#[cfg(test)]
mod promises;
#[cfg(test)]
mod requests;
#[cfg(test)]
mod schemas;
#[cfg(test)]
mod stacks;
