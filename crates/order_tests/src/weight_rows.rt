//! The weights of worked runs.

/// Each row: the name of a worked run, and the weight of the world at each moment, by the table of docs/nesting.md.
pub const WEIGHTS: &str = "both-call-at-once 0 6 12 11 10 9 8 6 5 4 3 1 0
close-with-promises 0 5 10 15 20 25 12 11 10 9 6 5 2 1 0
die-after-nine 0 6 12 11 10 9 15 14 13 19 18 17 23 22 21 20 18 17 11 10 9 6 5 4 1 0
drops 0 5 10 9 9 6 11 10 15 11 10 9 8 5 2 1 0
kept-resolver 0 5 10 9 8 6 5 4 1 3 2 1 0
lazy-outbox 0 6 12 15 14 20 17 16 15 14 11 10 9 6 5 4 1 0
limit-spent 0 6 12
overtaken-constructor 0 5 11 17 16 15 14 12 10 9 8 7 5 4 1 0
refused-closed 0 5 4 1 3 2 2 1 0
refused-in-call 0 6 5 4 10 9 8 8 7 5 4 3 1 0
reply-under-a-handler 0 6 5 4 9 8 7 4 2 7 6 5 2 1 0
two-tells 0 5 10 9 6 5 4 1 0";

/// The number of rows.
pub const WEIGHTS_COUNT: &str = "12";

/// The full weights, in which a kept resolver counts 2, of the run that keeps one.
pub const FULL_WEIGHTS: &str = "kept-resolver 0 5 10 9 8 8 7 6 3 3 2 1 0";
