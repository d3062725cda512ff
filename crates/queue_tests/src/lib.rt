//! Tests of relays whose sides run at the same time and meet only in two queues (docs/relay.md): what
//! each prints, and with a gate at which both sides meet.
#![tactic(auto)]

#[cfg(test)]
mod crossing;
#[cfg(test)]
mod given;
#[cfg(test)]
mod printouts;
#[cfg(test)]
mod relays;
#[cfg(test)]
mod rows;
