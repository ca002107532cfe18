// Decimal numbers of at most six digits in a text, between blanks and line ends: counting them, and reading them one after another.
#![tactic(auto)]

ghost use Rattle.std.specs.Prelude.{◌≡◌, ◌≤◌, unwrap_or, IfSome};
ghost use Rattle.numbers.specs.Numbers.{is_gap, numbers_in};
ghost use Rattle.numbers.specs.Counting.{digits_after, ends_here, count_of};
ghost use Rattle.numbers.specs.Cursor.{Skipped, Taken, Reads};

// the most digits of a number
const MOST_DIGITS: usize = 6;

// A text and a place in it are handed on as a pair: what is ahead is a relation of both (`Ahead`), and a cursor that borrows the text is no plainer.

// a number, and where the text goes on behind it
#[derive(Clone, Copy, Debug, PartialEq, Eq)]
pub struct Spot {
    pub value: usize,
    pub next: usize,
}

// a blank, 0a or 0d
fn is_gap(byte: u8) -> bool
    ensures { result ≡ is_gap byte }
{
    byte == 32 || (byte == 10 || byte == 13)
}

// ---- counting

// after d digits of a number and one more byte: how many digits; 7 for what is no number
// Digits first: most bytes are, and the two tests are then one choice, which no byte of a text can surprise.
fn digits_next(d: usize, byte: u8) -> usize
    requires { d ≤ 6 }
    ensures digits { result ≡ digits_after d byte }
    ensures most { result ≤ 7 }
{
    if numerals::is_digit(byte) {
        return d + 1;
    }
    if is_gap(byte) {
        return 0;
    }
    7
}

// the same; none for what is no number
fn digits_after(d: usize, byte: u8) -> Option<usize>
    requires { d ≤ 6 }
    ensures digits { unwrap_or result 7 ≡ digits_after d byte }
    ensures few { IfSome result (λ e. e ≤ 6) }
{
    let e = digits_next(d, byte);
    if e <= MOST_DIGITS {
        return Some(e);
    }
    None
}

// 1 if a number of d digits ends where e digits are next, else 0
fn ends_here(d: usize, e: usize) -> usize
    ensures { result ≡ ends_here d e }
{
    usize::from(d != 0 && e == 0)
}

// how many numbers a text has, if it is all numbers
pub fn count(text: &[u8]) -> Option<usize>
    ensures { result ≡ count_of (numbers_in text.now) }
{
    let mut k = 0;
    let mut d = 0;
    for byte in text {
        let e = digits_after(d, *byte)?;
        k += ends_here(d, e);
        d = e;
    }
    Some(k + ends_here(d, 0))
}

// ---- reading

// The two loops count by hand: over a range they took up to 1.5 times as long on texts of many numbers.

// the first byte from at on that is no blank and no line end
fn skip(text: &[u8], at: usize) -> usize
    ensures { Skipped text.now at result }
{
    let mut i = at;
    while i < text.len() {
        if !is_gap(text[i]) {
            return i;
        }
        i += 1;
    }
    i
}

// the digits from at on, at most six
fn take_digits(text: &[u8], at: usize) -> Spot
    ensures { Taken text.now at result.value result.next }
{
    let mut value = 0;
    let mut d: usize = 0;
    let mut i = at;
    while i < text.len() {
        let byte = text[i];
        if d == MOST_DIGITS {
            return Spot { value, next: i };
        }
        if !numerals::is_digit(byte) {
            return Spot { value, next: i };
        }
        value = value * 10 + (byte - 48) as usize;
        d += 1;
        i += 1;
    }
    Spot { value, next: i }
}

// the number from at on, and where the text goes on
pub fn read(text: &[u8], at: usize) -> Spot
    ensures { Reads text.now at result.value result.next }
{
    let start = skip(text, at);
    take_digits(text, start)
}
