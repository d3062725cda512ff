//! The law of the five laws on lines.
ghost use Rattle.order_statements.specs.Lawful.{HistoriesAreLawful};

use channel_laws::{histories_are_readable, histories_obey_all_laws};
use law_statements::{
    decides_fallen, decides_living, decides_prefix, decides_readable, decides_settled,
    decides_waits,
};

/// The law of laws: the history of every run can be read, and the statements of all five laws hold of it
/// (docs/laws.md).
pub fn histories_are_lawful()
    ensures { HistoriesAreLawful }
{
    histories_are_readable();
    histories_obey_all_laws();
    decides_readable();
    decides_prefix();
    decides_living();
    decides_waits();
    decides_settled();
    decides_fallen();
}
