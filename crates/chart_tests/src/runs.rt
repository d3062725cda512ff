//! The pictures of worked runs are documents, with a mark for each line that has one.
use super::given::{count_of, note, picture};
use super::reader::fault_of;
use history_of_text::schema_of;
use std::alloc::{AllocError, Global};
use std::test::Fail;
use worked_runs::{RUNS, row_of};

/// The number of marks of each kind.
#[derive(Clone, Copy)]
struct Marks {
    rows: usize,
    arrows: usize,
    handlers: usize,
    waits: usize,
    crosses: usize,
}

impl Marks {
    /// Returns the numbers as text.
    fn text(&self, alloc: Global) -> Result<String, AllocError> {
        let Marks {
            rows,
            arrows,
            handlers,
            waits,
            crosses,
        } = self;
        format!(in alloc;
            "{rows} rows, {arrows} arrows, {handlers} handlers, {waits} waits, {crosses} strokes"
        )
    }

    /// Counts what a line of a transcript brings, where each packet that is delivered was sent.
    fn add(&mut self, line: &str) {
        let event = line.split_once(" ").unwrap_or(("", line)).1;
        self.rows = self.rows.wrapping_add(1);
        if event.starts_with("deliver ") {
            self.arrows = self.arrows.wrapping_add(1);
        } else if event.starts_with("take ") && !event.starts_with("take reply ") {
            self.handlers = self.handlers.wrapping_add(1);
        } else if event.starts_with("call ") {
            self.waits = self.waits.wrapping_add(1);
        } else if event.starts_with(" fall ") {
            self.crosses = self.crosses.wrapping_add(2);
        }
    }
}

/// Returns the marks of a picture.
fn drawn(chart: &str) -> Marks {
    Marks {
        rows: count_of(chart, "<g>"),
        arrows: count_of(chart, " marker-end="),
        handlers: count_of(chart, " class=\"dispatch\""),
        waits: count_of(chart, " class=\"wait\""),
        crosses: count_of(chart, " class=\"fall\""),
    }
}

/// Returns the marks that the lines of a transcript ask for.
fn due(lines: &str) -> Marks {
    let mut marks = Marks {
        rows: 0,
        arrows: 0,
        handlers: 0,
        waits: 0,
        crosses: 0,
    };
    for line in lines.lines() {
        marks.add(line);
    }
    marks
}

/// Returns the lines of a run without the line of its ending.
fn lines_of(printed: &str) -> Option<&str> {
    let whole = printed.strip_suffix("\n")?;
    let (lines, _) = whole.rsplit_once("\n")?;
    Some(lines)
}

/// Notes a run whose picture is no document, or has other marks.
fn check(alloc: Global, text: &str, wrong: &mut String) -> Result<(), Fail> {
    let row = row_of(text).ok_or("a row of another form")?;
    let lines = lines_of(row.printed).ok_or("a run without lines")?;
    let schema = schema_of(alloc, row.file)?;
    let chart = picture(alloc, &schema, lines)?;
    note(row.name, fault_of(alloc, chart.as_str())?, "", wrong)?;
    let found = drawn(chart.as_str()).text(alloc)?;
    let wanted = due(lines).text(alloc)?;
    Ok(note(row.name, found.as_str(), wanted.as_str(), wrong)?)
}

/// Returns the runs with other pictures, and the number of runs.
fn checked(alloc: Global) -> Result<String, Fail> {
    let mut shown = String::new(alloc);
    let mut count = 0u32;
    for text in RUNS.split("====\n") {
        check(alloc, text, &mut shown)?;
        count = count.wrapping_add(1);
    }
    write!(shown, "{count}")?;
    Ok(shown)
}

#[test]
fn worked_runs_are_drawn(rt: HostRuntime) -> Result<(), Fail> {
    assert_eq!(rt; checked(rt.alloc())?.as_str(), "22");
    Ok(())
}
