//! Tests of one end of a channel: rows of calls on two ends with what each call answers, and the
//! lines that both ends print.
#![tactic(auto)]

#[cfg(test)]
mod actor_rows;
#[cfg(test)]
mod answers;
#[cfg(test)]
mod calls;
#[cfg(test)]
mod conditions;
#[cfg(test)]
mod interruptions;
#[cfg(test)]
mod nesting_rows;
#[cfg(test)]
mod packet_rows;
#[cfg(test)]
mod programs;
#[cfg(test)]
mod resolver_rows;
#[cfg(test)]
mod rows;
