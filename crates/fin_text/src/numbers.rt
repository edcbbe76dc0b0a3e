//! Numbers in decimal, without leading zeros.
ghost use Rattle.std.specs.Prelude.{◌≡◌, ◌≢◌, ◌↔◌, ℕ, suc, ◌∷◌, ◌^◌, ◌<◌, ◌≤◌, ℤ, IsTrue, MatchOption};
ghost use Rattle.std.specs.Fmt.{decimal};
ghost use Rattle.std.specs.Char.{digit_value};
ghost use Rattle.fin_base.specs.Words.{IsWord};
ghost use Rattle.fin_text.specs.Numbers.{IsSize, LeadsWell, spelled};

// The greatest number that is no value.
const MOST_SIZE: u64 = 1 << 40;

/// The number that a word spells: an extent, a coordinate or a place, at most 2^40.
pub fn read_size(word: &[u8]) -> Option<u64>
    ensures { MatchOption result
        ((n : ℕ) → IsSize n → word.now ≢ decimal n)
        (λ n. IsSize n × (word.now ≡ decimal n)) }
{
    decimal_up_to(word, MOST_SIZE)
}

/// The value that a word spells, from -2^63 to 2^63 - 1.
pub fn read_value(word: &[u8]) -> Option<i64>
    ensures { MatchOption result
        ((v : ℤ) → IsWord v → word.now ≢ spelled v)
        (λ v. IsWord v × (word.now ≡ spelled v)) }
{
    if word.is_empty() || word[0] != b'-' {
        let value = decimal_up_to(word, i64::MAX as u64)?;
        return Some(value as i64);
    }
    negative(&word[1..])
}

// The value that a minus and the digits spell.
fn negative(digits: &[u8]) -> Option<i64>
    ensures { MatchOption result
        ((n : ℕ) → n < 2 ^ 63 → digits.now ≢ decimal (suc n))
        (λ v. IsWord v × (45 ∷ digits.now ≡ spelled v)) }
{
    match decimal_up_to(digits, 1 << 63) {
        None => None,
        Some(magnitude) => {
            if magnitude == 0 {
                return None;
            }
            Some(-1 - (magnitude - 1) as i64)
        }
    }
}

// The number of at most so much that the digits spell.
fn decimal_up_to(digits: &[u8], most: u64) -> Option<u64>
    requires { most ≤ 2 ^ 63 }
    ensures { MatchOption result
        ((n : ℕ) → n ≤ most → digits.now ≢ decimal n)
        (λ n. (n ≤ most) × (digits.now ≡ decimal n)) }
{
    if !leads_well(digits) {
        return None;
    }
    let mut value = 0u64;
    for byte in digits {
        let Some(digit) = digit(*byte) else {
            return None;
        };
        if value > most / 10 {
            return None;
        }
        value = value * 10 + digit;
        if value > most {
            return None;
        }
    }
    Some(value)
}

// There is a digit, and no zero stands before others.
pub(crate) fn leads_well(digits: &[u8]) -> bool
    ensures { IsTrue result ↔ LeadsWell digits.now }
{
    digits.len() == 1 || digits.len() > 1 && digits[0] != b'0'
}

pub(crate) fn digit(byte: u8) -> Option<u64>
    ensures { MatchOption result (10 ≤ digit_value byte) (λ d. (d < 10) × (d ≡ digit_value byte)) }
{
    match byte {
        b'0'..=b'9' => Some((byte - b'0') as u64),
        _ => None,
    }
}
