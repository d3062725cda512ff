//! A row of a table of worked runs.

ghost use Rattle.std.specs.Prelude.{◌≡◌, IfSome};

/// A row of a table of runs: its name, the file of its protocol, how it is run, its script, and what it
/// prints.
#[derive(Clone, Copy)]
pub struct Row<'a> {
    /// The name of the row.
    pub name: &'a str,
    /// The file of its protocol.
    pub file: &'a str,
    /// How it is run: the word of turns, the limit and the death of an end.
    pub course: &'a str,
    /// The text of its script.
    pub script: &'a str,
    /// What it prints.
    pub printed: &'a str,
}

/// Returns the row that a text spells, or `None` if it is not a row.
pub fn row_of(text: &str) -> Option<Row<'_>> {
    let (head, whole) = text.split_once("\n")?;
    let (name, head) = head.split_once(" ")?;
    let (file, course) = head.split_once(" ")?;
    let (script, printed) = whole.split_once("----\n")?;
    Some(Row {
        name,
        file,
        course,
        script,
        printed,
    })
}

/// Returns the row of a table with this name, if all rows up to it can be read.
pub fn row_named<'a>(table: &'a str, name: &str) -> Option<Row<'a>>
    ensures { IfSome result (λ row. row.name.now ≡ name.now) }
{
    for text in table.split("====\n") {
        let row = row_of(text)?;
        if row.name == name {
            return Some(row);
        }
    }
    None
}
