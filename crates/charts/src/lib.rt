//! A history as a picture: one SVG document, with two lifelines and a row for each line of the history.
#![tactic(auto)]

mod chart;
mod escapes;
mod labels;
mod laws;
mod marks;
mod rows;
mod strokes;
mod tally;

pub use chart::chart_text;
pub use laws::{arrows_join_packets, charts_are_well_formed, rows_are_lines};
