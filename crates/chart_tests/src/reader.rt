//! A small reader of XML documents, which is stricter than XML: no comments, and only three entities.
use std::alloc::{AllocError, Global};

/// Reads a document, a piece after each `<`.
#[derive(Drop)]
struct Reader<'t> {
    /// The names of the tags that are open, the outermost first.
    open: Vec<&'t str>,
    /// The names of the tags that are in no other tag.
    roots: Vec<&'t str>,
}

/// Returns whether each `&` begins one of the three entities.
fn has_entities(text: &str) -> bool {
    let (_, pieces) = match text.split_once("&") {
        None => return true,
        Some(parts) => parts,
    };
    for piece in pieces.split("&") {
        if !(piece.starts_with("lt;") || piece.starts_with("gt;") || piece.starts_with("amp;")) {
            return false;
        }
    }
    true
}

/// Returns whether a text has only characters that XML takes: besides those from U+0020 on only the line feed here, and neither
/// U+FFFE nor U+FFFF.
fn has_characters(text: &str) -> bool {
    for byte in text.as_bytes() {
        if *byte < 32 && *byte != 10 || *byte == 127 {
            return false;
        }
    }
    !text.contains("\u{fffe}") && !text.contains("\u{ffff}")
}

/// Returns whether what is between `<` and `>` has each quote closed.
fn has_closed_quotes(tag: &str) -> bool {
    tag.split("\"").count() % 2 == 1
}

/// Returns the name of a tag that is no closing one.
fn name_of(tag: &str) -> &str {
    match tag.split_once(" ") {
        None => tag.strip_suffix("/").unwrap_or(tag),
        Some((name, _)) => name,
    }
}

impl<'t> Reader<'t> {
    /// Returns the fault of a tag, and opens or closes it.
    fn tag(&mut self, tag: &'t str) -> Result<&'static str, AllocError> {
        if let Some(name) = tag.strip_prefix("/") {
            return Ok(match self.open.pop() {
                Some(open) if open == name => "",
                _ => "closes another tag",
            });
        }
        let name = name_of(tag);
        if self.open.is_empty() {
            self.roots.push(name)?;
        }
        if !tag.ends_with("/") {
            self.open.push(name)?;
        }
        Ok("")
    }

    /// Returns the fault of characters between two tags.
    fn characters(&self, text: &str) -> &'static str {
        if text.contains(">") {
            "bare mark"
        } else if !has_entities(text) {
            "no entity"
        } else if self.open.is_empty() && !text.trim().is_empty() {
            "outside"
        } else {
            ""
        }
    }

    /// Returns the fault of what follows a `<` up to the next one.
    fn piece(&mut self, piece: &'t str) -> Result<&'static str, AllocError> {
        let (tag, text) = match piece.split_once(">") {
            None => return Ok("open mark"),
            Some(parts) => parts,
        };
        if !has_closed_quotes(tag) || !has_entities(tag) {
            return Ok("open quote");
        }
        let fault = self.tag(tag)?;
        Ok(if fault.is_empty() {
            self.characters(text)
        } else {
            fault
        })
    }

    /// Returns the fault of a document, piece by piece.
    fn pieces(&mut self, text: &'t str) -> Result<&'static str, AllocError> {
        for (at, piece) in text.split("<").enumerate() {
            let fault = if at == 0 {
                self.characters(piece)
            } else {
                self.piece(piece)?
            };
            if !fault.is_empty() {
                return Ok(fault);
            }
        }
        Ok("")
    }

    /// Returns the fault of the end of a document.
    fn end(&self) -> &'static str {
        if !self.open.is_empty() {
            "open tag"
        } else if self.roots.as_slice() != ["svg"].as_slice() {
            "no one root"
        } else {
            ""
        }
    }
}

/// Returns what is wrong with a document, or an empty text.
pub fn fault_of(alloc: Global, text: &str) -> Result<&'static str, AllocError> {
    if !has_characters(text) {
        return Ok("character");
    }
    let mut reader = Reader {
        open: Vec::new(alloc),
        roots: Vec::new(alloc),
    };
    let fault = reader.pieces(text)?;
    Ok(if fault.is_empty() {
        reader.end()
    } else {
        fault
    })
}
