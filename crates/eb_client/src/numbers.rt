// Reads the numbers in the words of a client.
ghost use Rattle.std.specs.Prelude.{◌≡◌, ◌<◌, ◌≤◌, ◌-◌, ◌^◌, min, ℕ, length, MatchOption};
ghost use Rattle.soc_desc.specs.Checks.{digit, digits_after, hex_of};
ghost use Rattle.eb_text.specs.Command.{AreDigits, Says, decimal_value};
ghost use Rattle.eb_client.specs.Place.{SaysNumber};

const MOST_DIGITS: usize = 20;

// The number in decimal digits, at most the greatest of 128 bits; none where one is no digit.
fn decimal_in(text: &[u8]) -> Option<u128>
    ensures { MatchOption result (AreDigits text.now → ⊥)
        (λ n. AreDigits text.now × (n ≡ min (decimal_value text.now) (2 ^ 128 - 1))) }
{
    let mut number: u128 = 0;
    for octet in text {
        if !octet.is_ascii_digit() {
            return None;
        }
        let digit = u128::from(*octet - b'0');
        number = number.saturating_mul(10).saturating_add(digit);
    }
    Some(number)
}

// The number of 64 bits that a word of 1 to 20 decimal digits says.
pub fn decimal_of(word: &[u8]) -> Option<u64>
    ensures { MatchOption result ((n : ℕ) → Says word.now n → n < 2 ^ 64 → ⊥)
        (λ n. Says word.now n × (n < 2 ^ 64)) }
{
    if word.is_empty() || word.len() > MOST_DIGITS {
        return None;
    }
    let number = decimal_in(word)?;
    if number > u128::from(u64::MAX) {
        return None;
    }
    Some(number as u64)
}

// The number that a word of `0x` and 1 to 16 hexadecimal digits says.
fn hex_of(word: &[u8]) -> Option<u64>
    ensures { result ≡ hex_of word.now }
{
    if word.len() < 3 || word.len() > 18 || word[0] != b'0' || word[1] != b'x' {
        return None;
    }
    digits_of(&word[2..])
}

fn digits_of(digits: &[u8]) -> Option<u64>
    requires few { length digits.now ≤ 16 }
    ensures { result ≡ digits_after 0 digits.now }
{
    let mut n = 0;
    for octet in digits {
        match digit(*octet) {
            None => return None,
            Some(d) => n = 16 * n + d,
        }
    }
    Some(n)
}

// A hexadecimal digit, of either case.
fn digit(octet: u8) -> Option<u64>
    ensures { result ≡ digit octet }
{
    match octet {
        48..=57 => Some(u64::from(octet) - 48),
        65..=70 => Some(u64::from(octet) - 55),
        97..=102 => Some(u64::from(octet) - 87),
        _ => None,
    }
}

// The number that a word says, in decimal or in hexadecimal digits.
pub fn number_in(word: &[u8]) -> Option<u64>
    ensures { MatchOption result ((n : ℕ) → SaysNumber word.now n → ⊥) (λ n. SaysNumber word.now n) }
{
    if let Some(number) = hex_of(word) {
        return Some(number);
    }
    decimal_of(word)
}
