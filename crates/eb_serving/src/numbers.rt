// Reads the numbers in the words of a server.
ghost use Rattle.std.specs.Prelude.{◌≡◌, ◌-◌, ◌^◌, ◌≤◌, min, ℕ, MatchOption};
ghost use Rattle.eb_text.specs.Command.{decimal_value, AreDigits, Says};

const MOST_DIGITS: usize = 20;

// The number in decimal digits, at most the greatest of 64 bits; none where one is no digit.
fn number_of(text: &[u8]) -> Option<u64>
    ensures { MatchOption result (AreDigits text.now → ⊥)
        (λ n. AreDigits text.now × (n ≡ min (decimal_value text.now) (2 ^ 64 - 1))) }
{
    let mut number: u64 = 0;
    for octet in text {
        if !octet.is_ascii_digit() {
            return None;
        }
        let digit = u64::from(*octet - b'0');
        number = number.saturating_mul(10).saturating_add(digit);
    }
    Some(number)
}

// The number that a word of 1 to 20 decimal digits says, where it is from 1 to `most`.
pub fn number_to(word: &str, most: u32) -> Option<u32>
    ensures { MatchOption result ((n : ℕ) → Says word.now n → 1 ≤ n → n ≤ most → ⊥)
        (λ n. Says word.now n × (1 ≤ n) × (n ≤ most)) }
{
    let text = word.as_bytes();
    if text.is_empty() || text.len() > MOST_DIGITS {
        return None;
    }
    let number = number_of(text)?;
    if number == 0 || number > u64::from(most) {
        return None;
    }
    Some(number as u32)
}
