//! The types of the values that a channel carries: which values have a type, how many bytes they take in a
//! frame, and
//! the text by which scripts and transcripts write them.
#![tactic(auto)]

mod decimal;
mod fits;
mod laws;
mod layout;
mod shapes;
mod sizes;
mod text;

pub use decimal::push_decimal;
pub use fits::{value_fits, values_fit};
pub use laws::{boxes_say_nothing, new_is_at_most_four_times};
pub use layout::{Layout, MARK, NEW, OLD};
pub use shapes::{builtin_of, component_of, element_of, fields_of, held_by, is_bytes};
pub use sizes::{body_size, number_bytes, payload_size, value_size, values_size};
pub use text::{push_value, push_values};
