//! Texts of names: arguments, full names and words.

ghost use Rattle.std.specs.Prelude.{◌≡◌, ◌==◌, ◌↔◌, ℕ, Bool, List, IsTrue, IfSome, IfNone, Some, option_map, position};
ghost use Rattle.std.specs.List.{before_first};
ghost use Rattle.ipdl_base.specs.declared.builtin.Builtin.{Builtin as BuiltinType};
ghost use Rattle.ipdl_syntax.specs.Grammar.{whole_name};
ghost use Rattle.name_table.specs.Finds.{IsNameOf, IsNameOfBuiltin, endpoint_word};

use ipdl_base::{Builtin, short_name};

/// Returns the index of the first `<` in a text, or `None`.
fn less_at(text: &[u8]) -> Option<usize>
    ensures { result ≡ position (λ b. b == 60) text.now }
{
    text.iter().position(|b| *b == b'<')
}

/// Returns the part of a full name before the `<` of its argument, or all of it if it has no argument.
pub fn before_argument(full: &[u8]) -> &[u8]
    ensures { result.now ≡ before_first (λ b. b == 60) full.now }
{
    match less_at(full) {
        Some(at) => &full[..at],
        None => full,
    }
}

/// Returns the argument of a text that is this prefix with an argument between `<` and `>`, or
/// `None` for any other text.
pub fn inner_of<'t>(whole: &'t [u8], front: &[u8]) -> Option<&'t [u8]>
    ensures some { IfSome result (λ inner. whole.now ≡ whole_name front.now (Some inner.now)) }
    ensures none { IfNone result ((inner : List ℕ) → ¬ (whole.now ≡ whole_name front.now (Some inner))) }
{
    whole
        .strip_prefix(front)?
        .strip_prefix(b"<")?
        .strip_suffix(b">")
}

/// Returns whether a full name is this text with this argument.
fn is_whole(full: &[u8], text: &[u8], inner: &[u8]) -> bool
    ensures { IsTrue result ↔ (full.now ≡ whole_name text.now (Some inner.now)) }
{
    match inner_of(full, text) {
        Some(found) => found == inner,
        None => false,
    }
}

/// Returns whether a text and its argument name a declaration of this full name.
pub fn is_name_of(text: &[u8], argument: Option<&[u8]>, full: &[u8]) -> bool
    ensures { IsTrue result ↔ IsNameOf text.now (option_map (λ inner. inner.now) argument.entry) full.now }
{
    match argument {
        Some(inner) => is_whole(full, text, inner) && !text.contains(&b'<'),
        None => !full.contains(&b'<') && (full == text || short_name(full) == text),
    }
}

/// Returns the builtin type that a text names by its full name or its word, or `None`.
pub fn builtin_of(text: &[u8]) -> Option<Builtin>
    ensures some { IfSome result (λ found. IsNameOfBuiltin found text.now) }
    ensures none { IfNone result ((other : BuiltinType) → ¬ IsNameOfBuiltin other text.now) }
{
    if text == b"mozilla::ipc::ByteBuf".as_slice() {
        Some(Builtin::ByteBuf)
    } else if text == b"mozilla::ipc::Shmem".as_slice() {
        Some(Builtin::Shmem)
    } else if text == b"mozilla::ipc::FileDescriptor".as_slice() {
        Some(Builtin::FileDescriptor)
    } else {
        Builtin::from_name(text)
    }
}

/// Returns whether an endpoint is managed, by its word, or `None` if the text is the word of no
/// endpoint.
pub fn endpoint_of(text: &[u8]) -> Option<bool>
    ensures some { IfSome result (λ managed. text.now ≡ endpoint_word managed) }
    ensures none { IfNone result ((managed : Bool) → ¬ (text.now ≡ endpoint_word managed)) }
{
    if text == b"Endpoint".as_slice() {
        Some(false)
    } else if text == b"ManagedEndpoint".as_slice() {
        Some(true)
    } else {
        None
    }
}

/// Returns the word of an endpoint, or that of a managed one.
pub fn word_of(managed: bool) -> &'static [u8]
    ensures { result.now ≡ endpoint_word managed }
{
    if managed {
        b"ManagedEndpoint"
    } else {
        b"Endpoint"
    }
}
