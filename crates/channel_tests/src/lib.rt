//! Tests of the channel over texts: the laws of histories, the calls that wait, and the texts of
//! transcripts.
#![tactic(auto)]

#[cfg(test)]
mod chain_rows;
#[cfg(test)]
mod chains;
#[cfg(test)]
mod fallen_rows;
#[cfg(test)]
mod given;
#[cfg(test)]
mod large;
#[cfg(test)]
mod living_rows;
#[cfg(test)]
mod prefix_rows;
#[cfg(test)]
mod run_rows;
#[cfg(test)]
mod settled_rows;
#[cfg(test)]
mod texts;
#[cfg(test)]
mod verdicts;
#[cfg(test)]
mod waits_rows;
#[cfg(test)]
mod whole_rows;
