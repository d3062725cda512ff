//! Rows of audits of swapped events.

/// What an audit reports of each worked run in which two neighbouring events of different sides are
/// swapped, each with its effects: the run, the number of the first of the two, counted from 1, and
/// what the audit reports.
///
/// Each is worked out from the rules. What an end does, and what a delivery does to it, depends only on
/// its own lines and on the packet that comes next. So the two may be in either order, and the text
/// stays legal, with the same number of events. The exception is a second event that delivers what the
/// first put on the link: a request (for a lazy one, a later send or a flush puts it there), a reply, a
/// goodbye or a mark. Then there is nothing to deliver, and the line at the place of the first is the
/// one that no run prints.
pub const SWAPS: &str = "\
both-call-at-once 1 legal 12
both-call-at-once 2 no step 2
both-call-at-once 3 legal 12
both-call-at-once 6 no step 6
both-call-at-once 10 no step 11
close-with-promises 3 legal 14
close-with-promises 6 legal 14
compression 9 legal 34
compression 19 legal 34
compression 20 legal 34
compression 21 legal 34
compression 22 legal 34
compression 32 no step 37
death-under-nested-waits 1 no step 1
death-under-nested-waits 4 no step 4
death-under-nested-waits 7 no step 7
death-under-nested-waits 10 no step 10
delete-of-a-tree 5 legal 23
delete-of-a-tree 17 no step 27
delete-of-a-tree 18 legal 23
delete-of-a-tree 19 legal 23
delete-of-a-tree 20 legal 23
drops 2 legal 16
drops 3 legal 16
drops 4 legal 16
drops 6 no step 9
drops 7 legal 16
drops 8 legal 16
drops 9 legal 16
drops 10 legal 16
drops 11 legal 16
drops 12 legal 16
drops 13 legal 16
drops 14 legal 16
drops 15 legal 16
four-nested-calls 1 legal 30
four-nested-calls 2 no step 2
four-nested-calls 3 legal 30
four-nested-calls 6 no step 6
four-nested-calls 9 no step 9
four-nested-calls 12 no step 12
four-nested-calls 15 no step 15
four-nested-calls 18 no step 19
four-nested-calls 21 no step 23
four-nested-calls 24 no step 27
four-nested-calls 28 no step 32
kept-resolver 2 legal 12
kept-resolver 9 no step 9
kept-resolver 10 legal 12
kept-resolver 11 legal 12
lazy-outbox 3 no step 3
lazy-outbox 4 legal 17
lazy-outbox 5 legal 17
lazy-outbox 6 legal 17
lazy-outbox 7 legal 17
limit-spent 1 legal 2
overtaken-constructor 1 legal 15
overtaken-constructor 2 legal 15
overtaken-constructor 3 legal 15
overtaken-constructor 4 legal 15
overtaken-constructor 5 legal 15
overtaken-constructor 7 no step 8
overtaken-constructor 11 no step 13
refused-closed 1 no step 1
refused-closed 4 no step 4
refused-closed 5 legal 8
refused-closed 6 legal 8
refused-closed 7 legal 8
refused-in-call 1 no step 1
refused-in-call 4 no step 4
refused-in-call 8 no step 8
refused-in-call 11 no step 12
refused-inside-cpow 1 no step 1
refused-level-too-low 1 no step 1
refused-level-too-low 5 no step 5
refused-nested-in-normal 1 no step 1
refused-nested-in-normal 5 no step 5
reply-under-a-handler 1 no step 1
reply-under-a-handler 5 legal 14
reply-under-a-handler 9 no step 10
reply-under-a-handler 10 legal 14
reply-under-a-handler 11 legal 14
reply-under-a-handler 12 legal 14
reply-under-a-handler 13 legal 14
two-tells 2 legal 8
";
