//! Tests of runs (docs/scripts.md): worked runs, by the world alone and by a driver; halves that run
//! separately; deaths under nested calls; limits that cut a run; and feeds, with a frame for each fault
//! (docs/feed.md). Every law is tested on each history, and the law of one end on each feed.
#![tactic(auto)]

#[cfg(test)]
mod alone;
#[cfg(test)]
mod apart_rows;
#[cfg(test)]
mod courses;
#[cfg(test)]
mod deaths;
#[cfg(test)]
mod deep_rows;
#[cfg(test)]
mod feed_rows;
#[cfg(test)]
mod feeds;
#[cfg(test)]
mod given;
#[cfg(test)]
mod half_lines;
#[cfg(test)]
mod halves;
#[cfg(test)]
mod laws;
#[cfg(test)]
mod limits;
#[cfg(test)]
mod made_feeds;
#[cfg(test)]
mod order_rows;
#[cfg(test)]
mod printed_runs;
#[cfg(test)]
mod texts;
