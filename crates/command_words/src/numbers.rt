//! Numbers in words.
ghost use Rattle.std.specs.Prelude.{◌≡◌, ◌≤◌, ◌^◌, ℕ, None, IfSome};
ghost use Rattle.command_words.specs.RunOptions.{IsCount, IsNumber};

/// Returns the number that a text writes in decimal digits, with or without leading zeros. The result is `None` if the text is
/// not a number, or if the number is 2^32 or more.
pub fn number_of(text: &str) -> Option<u32>
    ensures number { IfSome result (IsNumber text.now) }
    ensures none { result ≡ None → (n : ℕ) → IsNumber text.now n → 2 ^ 32 ≤ n }
{
    if text.starts_with('+') {
        return None;
    }
    text.parse::<u32>().ok()
}

/// Returns the number that a text writes, from 1 to `most`, or `None`.
pub fn count_of(text: &str, most: u32) -> Option<u32>
    ensures count { IfSome result (IsCount most text.now) }
    ensures none { result ≡ None → (n : ℕ) → ¬ IsCount most text.now n }
{
    match number_of(text) {
        Some(n) if n >= 1 && n <= most => Some(n),
        _ => None,
    }
}
