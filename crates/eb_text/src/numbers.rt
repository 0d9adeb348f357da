// Reads the numbers in words.
ghost use Rattle.std.specs.Prelude.{◌≡◌, ◌-◌, ◌^◌, ◌≤◌, ◌<◌, min, ℕ, MatchOption};
ghost use Rattle.eb_text.specs.Command.{decimal_value, AreDigits, IsDecimal, IsRamSize, Says};

const MOST_DIGITS: usize = 20;

// The most octets of a RAM.
const MOST_OCTETS: u32 = 1_048_576;

// The number in decimal digits, at most the greatest of 64 bits; none where one is no digit.
fn number_of(text: &[u8]) -> Option<u64>
    ensures { MatchOption result (AreDigits text.now → ⊥)
        (λ n. AreDigits text.now × (n ≡ min (decimal_value text.now) (2 ^ 64 - 1))) }
{
    let mut number: u64 = 0;
    for octet in text {
        if !octet.is_ascii_digit() {
            return None;
        }
        let digit = u64::from(*octet - b'0');
        number = number.saturating_mul(10).saturating_add(digit);
    }
    Some(number)
}

// The number that a word of 1 to 20 decimal digits says, where it is at most `most`.
pub fn number_at_most(word: &str, most: u32) -> Option<u32>
    ensures { MatchOption result ((n : ℕ) → Says word.now n → n ≤ most → ⊥) (λ n. Says word.now n × (n ≤ most)) }
{
    let text = word.as_bytes();
    if text.is_empty() || text.len() > MOST_DIGITS {
        return None;
    }
    let number = number_of(text)?;
    if number > u64::from(most) {
        return None;
    }
    Some(number as u32)
}

// The size of a RAM that a word says.
pub fn ram_size_of(word: &str) -> Option<u32>
    ensures { MatchOption result ((n : ℕ) → Says word.now n → IsRamSize n → ⊥) (λ n. Says word.now n × IsRamSize n) }
{
    let octets = number_at_most(word, MOST_OCTETS)?;
    if octets % 4 != 0 || octets < 4 {
        return None;
    }
    Some(octets)
}
