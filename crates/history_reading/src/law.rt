//! The laws of histories, by their names.
/// One of the five laws of histories (docs/laws.md).
#[derive(Clone, Copy, Debug, PartialEq, Eq)]
pub enum Law {
    Prefix,
    Living,
    Waits,
    Settled,
    Fallen,
}
