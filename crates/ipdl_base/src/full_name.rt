//! Short names.
ghost use Rattle.std.specs.Prelude.{◌≡◌};
ghost use Rattle.ipdl_base.specs.Words.{short_name};

/// Returns the short name for this full name: the bytes after its last colon, or all of them if it has no colon
/// (docs/names.md).
pub fn short_name(full: &[u8]) -> &[u8]
    ensures { result.now ≡ short_name full.now }
{
    for index in (0..full.len()).rev() {
        if full[index] == b':' {
            return &full[index + 1..];
        }
    }
    full
}
