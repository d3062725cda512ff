//! Tests of the whole program: what words mean, and what a call leaves on files and sinks in memory.
#![tactic(auto)]

#[cfg(test)]
mod audit_rows;
#[cfg(test)]
mod call_rows;
#[cfg(test)]
mod calls;
#[cfg(test)]
mod chart_rows;
#[cfg(test)]
mod explore_rows;
#[cfg(test)]
mod feed_rows;
#[cfg(test)]
mod frame_rows;
#[cfg(test)]
mod generated;
#[cfg(test)]
mod relay_rows;
#[cfg(test)]
mod run_rows;
#[cfg(test)]
mod topics;
#[cfg(test)]
mod wait_rows;
#[cfg(test)]
mod words;
#[cfg(test)]
mod writes;
