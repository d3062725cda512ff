//! The law of order on lines.
ghost use Rattle.order_statements.specs.Laws.{HistoriesKeepOrder};

/// The law of order: in every legal history an end takes the first waiting packet that it does not defer.
/// It closes because the other end has ended only when nothing else waits.
pub fn histories_keep_order()
    ensures { HistoriesKeepOrder }
{}
