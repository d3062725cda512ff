//! What holds of the picture of each history.

ghost use Rattle.charts.specs.Laws.{ArrowsJoinPackets, ChartsAreWellFormed, RowsAreLines};

/// The law of documents: the picture of a history is one well-formed element named `svg` and a line
/// feed, whatever the schema, the lines and the ending are: each element that opens closes, in
/// order, no element has two attributes of one name, and outside of markup there is no `<`, no `>`
/// and no `&` but that of an entity. The law does not say that the bytes from 128 on are UTF-8.
pub fn charts_are_well_formed()
    ensures { ChartsAreWellFormed }
{}

/// The law of rows: the picture of a history is its head, one row for each line in their order, and
/// its foot. A row is a group that has the line of the transcript as its title.
pub fn rows_are_lines()
    ensures { RowsAreLines }
{}

/// The law of arrows: the arrow of a request or a reply ends at the first line that delivers the
/// request or the reply of its number, and at the bottom if no line does. The bar of a handler ends
/// at the return of its number, the bar of a wait where the call of its number continues, and the
/// line of a waiting item where the item of its number is taken, dropped or replaced. The arrow of a
/// lazy send begins at the first line after it at which the outbox of its side empties, and there is
/// none if the farewell of the other end drops the outbox before that line, or if there is no such
/// line. A goodbye or a death has an arrow exactly where it is the first line of its side at which
/// the channel ends; the arrow ends at the first farewell of the other side, and at the bottom if
/// none arrives there.
pub fn arrows_join_packets()
    ensures { ArrowsJoinPackets }
{}
