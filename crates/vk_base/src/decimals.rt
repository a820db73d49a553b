//! Decimal numbers without leading zeros, as files, words and printed lines have them.
ghost use Rattle.std.specs.Prelude.{◌≡◌, ◌<◌, ◌^◌, ℕ, Some, IfSome};
ghost use Rattle.std.specs.Fmt.{decimal};
ghost use Rattle.vk_base.specs.Decimals.{is_padded};

// Whether a text begins with a plus, or with a zero that isn't alone.
fn is_padded(text: &[u8]) -> bool
    ensures { result ≡ is_padded text.now }
{
    match text {
        [b'+', ..] => true,
        [b'0', _, ..] => true,
        _ => false,
    }
}

/// The number of 32 bits of which these are the decimal digits, without leading zeros; `None`
/// exactly where no such number has them.
pub fn read_u32(digits: &str) -> Option<u32>
    ensures found { IfSome result (λ n. decimal n ≡ digits.now) }
    ensures known { (n : ℕ) → n < 2 ^ 32 → decimal n ≡ digits.now → result ≡ Some n }
{
    if is_padded(digits.as_bytes()) {
        return None;
    }
    digits.parse().ok()
}

/// The number of 64 bits of which these are the decimal digits, without leading zeros; `None`
/// exactly where no such number has them.
pub fn read_u64(digits: &str) -> Option<u64>
    ensures found { IfSome result (λ n. decimal n ≡ digits.now) }
    ensures known { (n : ℕ) → n < 2 ^ 64 → decimal n ≡ digits.now → result ≡ Some n }
{
    if is_padded(digits.as_bytes()) {
        return None;
    }
    digits.parse().ok()
}
