//! Tests of explorations (docs/explore.md): the ways of worked scripts, whole or cut; what the words of ways print; and that
//! worked runs, runs whose sides go on at the same time, and texts that an audit calls legal are each one of the ways.
#![tactic(auto)]

#[cfg(test)]
mod given;
#[cfg(test)]
mod large;
#[cfg(test)]
mod legal;
#[cfg(test)]
mod printed;
#[cfg(test)]
mod rows;
#[cfg(test)]
mod texts;
#[cfg(test)]
mod threads;
#[cfg(test)]
mod way_rows;
#[cfg(test)]
mod ways;
