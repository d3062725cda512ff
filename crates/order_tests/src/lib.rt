//! Tests of the order of takes, of the effects and answers that events owe, and of weights, over texts.
#![tactic(auto)]

#[cfg(test)]
mod given;
#[cfg(test)]
mod load;
#[cfg(test)]
mod made;
#[cfg(test)]
mod order_rows;
#[cfg(test)]
mod runs;
#[cfg(test)]
mod verdicts;
#[cfg(test)]
mod weight_rows;
#[cfg(test)]
mod weights;
