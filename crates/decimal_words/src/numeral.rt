//! Numbers as words spell them.
ghost use Rattle.std.specs.Prelude.{◌≡◌, ◌<◌, ◌≤◌, ◌^◌, ℕ, decimal, Some, None, IfSome};
ghost use Rattle.decimal_words.specs.Numbers.{number_of, within};

use itoa::Buffer;

/// The number below 2^64 that a word spells in decimal, without a sign and without a leading 0.
pub fn number(word: &[u8]) -> Option<u64>
    ensures { result ≡ number_of word.now }
{
    spelled(word)
}

/// The number that a word spells, where it lies in this range.
pub fn number_within(low: u64, high: u64, word: &[u8]) -> Option<u64>
    ensures value { result ≡ within low high (number_of word.now) }
    ensures bounds { IfSome result (λ n. (low ≤ n) × (n ≤ high)) }
{
    match number(word) {
        Some(number) if low <= number && number <= high => Some(number),
        _ => None,
    }
}

fn spelled(word: &[u8]) -> Option<u64>
    ensures some { IfSome result (λ n. word.now ≡ decimal n) }
    ensures small { IfSome result (λ n. n < 2 ^ 64) }
    ensures none { result ≡ None → (n : ℕ) → n < 2 ^ 64 → word.now ≡ decimal n → ⊥ }
{
    let Ok(text) = str::from_utf8(word) else {
        return None;
    };
    let Ok(number) = text.parse::<u64>() else {
        return None;
    };
    let mut digits = Buffer::new();
    if digits.format(number).as_bytes() == word {
        Some(number)
    } else {
        None
    }
}
