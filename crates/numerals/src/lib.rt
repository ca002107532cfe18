// A number in decimal digits, read.
#![tactic(auto)]

ghost use Rattle.std.specs.Prelude.{◌≡◌};
ghost use Rattle.numerals.specs.Numerals.{is_digit, number_of};

// whether a byte is a decimal digit
pub fn is_digit(byte: u8) -> bool
    ensures { result ≡ is_digit byte }
{
    byte.is_ascii_digit()
}

// The number that decimal digits write. None if there is no digit, a byte is none, or the number is over 2^64 − 1.
pub fn number_of(text: &[u8]) -> Option<usize>
    ensures { result ≡ number_of text.now }
{
    if text.is_empty() {
        return None;
    }
    let mut x: usize = 0;
    for byte in text {
        if !is_digit(*byte) {
            return None;
        }
        let digit = usize::from(*byte - 48);
        x = x.checked_mul(10)?.checked_add(digit)?;
    }
    Some(x)
}
