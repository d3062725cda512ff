//! Tests of the report of what may interrupt a wait, over programs as texts.
#![tactic(auto)]

#[cfg(test)]
mod lines;
#[cfg(test)]
mod rows;
#[cfg(test)]
mod size_rows;
#[cfg(test)]
mod tests;
