//! Tests of the deliveries to an end, over texts and bytes.
#![tactic(auto)]

#[cfg(test)]
mod checks;
#[cfg(test)]
mod deliveries;
#[cfg(test)]
mod schemas;
