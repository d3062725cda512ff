//! Tests of handler scripts as texts: how each line is read, which rules a script breaks and where, the
//! scripts of the worked cases, the actions of a script one by one, and texts as deep and as large as
//! they can be.
#![tactic(auto)]

#[cfg(test)]
mod calls;
#[cfg(test)]
mod given;
#[cfg(test)]
mod large;
#[cfg(test)]
mod line_rows;
#[cfg(test)]
mod message_rows;
#[cfg(test)]
mod parts;
#[cfg(test)]
mod pieces;
#[cfg(test)]
mod place_rows;
#[cfg(test)]
mod readings;
#[cfg(test)]
mod rules;
#[cfg(test)]
mod shows;
#[cfg(test)]
mod value_rows;
#[cfg(test)]
mod worked_rows;
