//! Tests of the crates that read texts, and of those below them: names, rules, files and sinks,
//! reports, tokens, trees, and the sections of a sync list.
#![tactic(auto)]

#[cfg(test)]
mod base;
#[cfg(test)]
mod checks;
#[cfg(test)]
mod copies;
#[cfg(test)]
mod name_rows;
#[cfg(test)]
mod reports;
#[cfg(test)]
mod rules;
#[cfg(test)]
mod sync_rows;
#[cfg(test)]
mod sync_texts;
#[cfg(test)]
mod syntax;
#[cfg(test)]
mod syntax_rows;
#[cfg(test)]
mod token_rows;
#[cfg(test)]
mod tokens;
#[cfg(test)]
mod tree_rows;
#[cfg(test)]
mod trees;
