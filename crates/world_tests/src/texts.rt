//! The parts of what a run prints.

/// Returns how many events of a side are in a text: its lines, except those of effects.
pub fn events_of(side: &str, text: &str) -> u32 {
    let mut count = 0u32;
    for line in text.lines() {
        if line.starts_with(side) {
            count = count.wrapping_add(1);
        }
    }
    count
}

/// Splits what a run prints into its lines and the last one, which reports how it ended.
pub fn lines_and_ending(printed: &str) -> Option<(&str, &str)> {
    let lines = printed
        .strip_suffix("finished\n")
        .or(printed.strip_suffix("spent parent\n"))
        .or(printed.strip_suffix("spent child\n"))?;
    let ending = printed.strip_prefix(lines)?;
    Some((lines, ending))
}
