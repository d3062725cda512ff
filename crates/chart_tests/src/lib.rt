//! Tests of the pictures of histories, over texts.
#![tactic(auto)]

#[cfg(test)]
mod cut_rows;
#[cfg(test)]
mod document_rows;
#[cfg(test)]
mod documents;
#[cfg(test)]
mod given;
#[cfg(test)]
mod label_rows;
#[cfg(test)]
mod labels;
#[cfg(test)]
mod mark_rows;
#[cfg(test)]
mod marks;
#[cfg(test)]
mod reader;
#[cfg(test)]
mod runs;
#[cfg(test)]
mod text_rows;
#[cfg(test)]
mod texts;
#[cfg(test)]
mod whole;
#[cfg(test)]
mod whole_rows;
