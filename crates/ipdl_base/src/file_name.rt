//! The names and keys of files.
ghost use Rattle.std.specs.Prelude.{◌≡◌, ◌↔◌, IsTrue};
ghost use Rattle.ipdl_base.specs.FileNames as names;

/// The ending of the names of protocol files.
pub const PROTOCOL_ENDING: &[u8] = b".ipdl";

/// The ending of the names of headers.
pub const HEADER_ENDING: &[u8] = b".ipdlh";

/// Returns what follows the last byte `mark` of a text, or all of the text if it has no such byte.
fn after_last(text: &[u8], mark: u8) -> &[u8]
    ensures { result.now ≡ names.after_last mark text.now }
{
    let mut following = text;
    for (i, b) in text.iter().enumerate() {
        if *b == mark {
            let (_, after) = text.split_at(i + 1);
            following = after;
        }
    }
    following
}

/// Returns the key of a file by its name: the part after the last `/`, or the whole name if it has no `/`
/// (docs/reach.md, docs/command_line.md).
pub fn key_of(name: &[u8]) -> &[u8]
    ensures { result.now ≡ names.key_of name.now }
{
    after_last(name, b'/')
}

/// Returns whether a word names a file: it ends in `.ipdl` or in `.ipdlh` (docs/reach.md, docs/command_line.md).
pub fn is_file_word(word: &[u8]) -> bool
    ensures { IsTrue result ↔ names.IsFileWord word.now }
{
    word.ends_with(PROTOCOL_ENDING) || word.ends_with(HEADER_ENDING)
}
