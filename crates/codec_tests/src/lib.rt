//! Tests of the codec over one program: bytes and what they begin with, and messages and their frames.
#![tactic(auto)]

#[cfg(test)]
mod checks;
#[cfg(test)]
mod encodes;
#[cfg(test)]
mod limits;
#[cfg(test)]
mod new_rows;
#[cfg(test)]
mod old_rows;
#[cfg(test)]
mod rows;
#[cfg(test)]
mod schemas;
#[cfg(test)]
mod shown;
