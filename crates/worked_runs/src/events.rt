//! Events of what a run prints.

use std::alloc::{AllocError, Global};

/// Returns the events of what a run prints, each with its effects, and after them the line that reports
/// how it ended. An effect without an event is left out.
pub fn events_of(alloc: Global, printed: &str) -> Result<Vec<String>, AllocError> {
    let mut events = Vec::new(alloc);
    for line in printed.lines() {
        if !line.starts_with("  ") {
            events.push(String::new(alloc))?;
        }
        if let Some(event) = events.last_mut() {
            event.push_str(line)?;
            event.push('\n')?;
        }
    }
    Ok(events)
}

/// Returns the text of these events, with the one at a place after the next one.
pub fn swapped(alloc: Global, events: &[String], place: usize) -> Result<String, AllocError> {
    let next = place.saturating_add(1);
    let mut text = String::new(alloc);
    for (at, event) in events.iter().enumerate() {
        if at == place {
            text.push_str(events.get(next).map_or("", |next| next.as_str()))?;
        }
        if at != next {
            text.push_str(event.as_str())?;
        }
    }
    Ok(text)
}
