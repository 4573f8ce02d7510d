//! Numbers of at most 32 bits.
ghost use Rattle.std.specs.Prelude.{◌≡◌, ◌≢◌, ◌<◌, ◌^◌, ℕ, decimal, IfSome, IfNone, true};
ghost use Rattle.plan_lang.specs.Numbers.{number_in, is_numeral, has_leading_zero, are_digits};

/// The number of a word: decimal digits without a sign, and without a leading zero but in `0` itself.
/// `None` also for a number above 4,294,967,295; a caller with a narrower range tests that itself.
pub fn number_of(word: &[u8]) -> Option<u32>
    ensures value { result ≡ number_in word.now }
    ensures found { IfSome result (λ n. word.now ≡ decimal n) }
    ensures none { IfNone result ((n : ℕ) → n < 2 ^ 32 → word.now ≢ decimal n) }
{
    if !looks_like_number(word) {
        return None;
    }
    digits_value(word)
}

fn looks_like_number(word: &[u8]) -> bool
    ensures { result ≡ is_numeral word.now }
{
    !word.is_empty() && !starts_with_zero(word) && has_only_digits(word)
}

// A zero stands before other digits.
fn starts_with_zero(word: &[u8]) -> bool
    ensures { result ≡ has_leading_zero word.now }
{
    match word {
        [b'0', _, ..] => true,
        _ => false,
    }
}

fn has_only_digits(word: &[u8]) -> bool
    ensures { result ≡ are_digits word.now }
{
    word.iter().all(|b| b.is_ascii_digit())
}

// The number that digits give, where it fits.
fn digits_value(digits: &[u8]) -> Option<u32>
    requires { is_numeral digits.now ≡ true }
    ensures value { result ≡ number_in digits.now }
{
    let text = match str::from_utf8(digits) {
        Ok(text) => text,
        Err(_) => unreachable!(),
    };
    match text.parse::<u32>() {
        Ok(number) => Some(number),
        Err(_) => None,
    }
}
