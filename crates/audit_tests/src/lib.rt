//! Tests of audits (docs/audit.md): of a worked transcript and texts that differ from it; of what
//! worked runs print, whole, cut, with a byte turned, a line doubled, or two events swapped; of what
//! two threads print; and of a merge of both halves of what each relay prints.
#![tactic(auto)]

#[cfg(test)]
mod apart;
#[cfg(test)]
mod changes;
#[cfg(test)]
mod given;
#[cfg(test)]
mod relay_rows;
#[cfg(test)]
mod relays;
#[cfg(test)]
mod swaps;
#[cfg(test)]
mod texts;
