//! Tests of the front end on texts: loading a list of files, finding names, the rules, the tables,
//! and the sync list.
#![tactic(auto)]

#[cfg(test)]
mod built_names;
#[cfg(test)]
mod founds;
#[cfg(test)]
mod given;
#[cfg(test)]
mod large;
#[cfg(test)]
mod lists;
#[cfg(test)]
mod load_rows;
#[cfg(test)]
mod loads;
#[cfg(test)]
mod manager_rows;
#[cfg(test)]
mod message_rows;
#[cfg(test)]
mod names;
#[cfg(test)]
mod rules;
#[cfg(test)]
mod tables;
#[cfg(test)]
mod type_rows;
