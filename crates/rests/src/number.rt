// A record number that is written in decimals. Any bytes have an answer: a number below 2^64, or that they are none.
ghost use Rattle.std.specs.Prelude.{◌≡◌};
ghost use Rattle.rests.specs.Decimal.{with_digit, decimal_of};

// The number with one more digit behind it.
fn with_digit(value: u64, byte: u8) -> Option<u64>
    ensures { result ≡ with_digit value byte }
{
    if !byte.is_ascii_digit() {
        return None;
    }
    value.checked_mul(10)?.checked_add(u64::from(byte - b'0'))
}

// Digits and nothing else, and one at least.
// Kept (point 4): the library's `parse` takes a sign in front, which is no record number (`a_sign_is_none`).
pub(crate) fn decimal(word: &[u8]) -> Option<u64>
    ensures { result ≡ decimal_of word.now }
{
    if word.is_empty() {
        return None;
    }
    let mut value: u64 = 0;
    for byte in word {
        value = with_digit(value, *byte)?;
    }
    Some(value)
}
