ghost use Rattle.std.specs.Prelude.{◌≡◌, ◌≤◌, length, true, IfSome};
ghost use Rattle.std.specs.List.{list_all};
ghost use Rattle.text_and_lists.specs.Numbers.{is_digit, digits_from, number_of, number_in};

fn is_a_digit(b: u8) -> bool
    ensures { result ≡ is_digit b }
{
    48 <= b && b <= 57
}

fn are_digits(text: &[u8]) -> bool
    ensures { result ≡ list_all is_digit text.now }
{
    text.iter().all(|b| is_a_digit(*b))
}

fn value(text: &[u8]) -> u64
    requires digits { list_all is_digit text.now ≡ true }
    requires few { length text.now ≤ 18 }
    ensures { result ≡ digits_from 0 text.now }
{
    let mut n = 0u64;
    for b in text {
        n = n * 10 + u64::from(*b - 48);
    }
    n
}

/// Returns the number that 1 to 18 decimal digits write. Leading zeros are allowed, a sign is not.
pub fn number(text: &str) -> Option<u64>
    ensures { result ≡ number_of text.now }
{
    let digits = text.as_bytes();
    if 1 <= digits.len() && digits.len() <= 18 && are_digits(digits) {
        Some(value(digits))
    } else {
        None
    }
}

/// Returns the number that 1 to 18 decimal digits write, if it is from `low` to `high`.
pub fn number_within(low: u64, high: u64, text: &str) -> Option<u64>
    ensures number { result ≡ number_in low high text.now }
    ensures within { IfSome result (λ n. (low ≤ n) × (n ≤ high)) }
{
    match number(text) {
        Some(n) => { if low <= n && n <= high { Some(n) } else { None } }
        None => None,
    }
}
