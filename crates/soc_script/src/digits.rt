// Reads numbers in digits.
ghost use Rattle.std.specs.Prelude.{◌≡◌, ◌≤◌, ◌<◌, ◌^◌, length, IfSome};
ghost use Rattle.soc_script.specs.Digits.{decimal_of, digit_below, digit_value, hex_number, number_behind, number_of};

// A hexadecimal digit, of either case.
fn digit_value(octet: u8) -> Option<u64>
    ensures value { result ≡ digit_value octet }
{
    match octet {
        48..=57 => Some(u64::from(octet) - 48),
        65..=70 => Some(u64::from(octet) - 55),
        97..=102 => Some(u64::from(octet) - 87),
        _ => None,
    }
}

fn digit_below(base: u64, octet: u8) -> Option<u64>
    ensures value { result ≡ digit_below base octet }
{
    let digit = digit_value(octet)?;
    if digit < base { Some(digit) } else { None }
}

// The number that at most 16 digits say.
fn number_in(base: u64, digits: &[u8]) -> Option<u64>
    requires base { base ≤ 16 }
    requires few { length digits.now ≤ 16 }
    ensures value { result ≡ number_behind base 0 digits.now }
    ensures fits { IfSome result (λ n. n < 16 ^ length digits.now) }
{
    let mut number = 0;
    for octet in digits {
        match digit_below(base, *octet) {
            None => return None,
            Some(digit) => number = base * number + digit,
        }
    }
    Some(number)
}

fn number_of(base: u64, most: usize, word: &[u8]) -> Option<u64>
    requires base { base ≤ 16 }
    requires most { most ≤ 16 }
    ensures value { result ≡ number_of base most word.now }
    ensures fits { IfSome result (λ n. n < 16 ^ most) }
{
    if word.is_empty() || word.len() > most {
        return None;
    }
    number_in(base, word)
}

/// The number that a word of 1 to 5 decimal digits says.
pub fn decimal_of(word: &[u8]) -> Option<u64>
    ensures value { result ≡ decimal_of word.now }
{
    number_of(10, 5, word)
}

/// The number that a word of 1 to `most` hexadecimal digits says.
pub fn hex_number(most: usize, word: &[u8]) -> Option<u64>
    requires most { most ≤ 16 }
    ensures value { result ≡ hex_number most word.now }
    ensures fits { IfSome result (λ n. n < 16 ^ most) }
{
    number_of(16, most, word)
}
