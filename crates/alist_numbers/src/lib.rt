// Numbers and line ends put into a text buffer as far as it reaches.
#![tactic(auto)]

ghost use Rattle.std.specs.Prelude.{◌≡◌, [], ◌∷◌, map, suc, ◌+◌, ◌-◌, ◌*◌, ◌≤◌, ◌<◌, eqb, length, replicate};
ghost use Rattle.bits.specs.Row.{row, places_in};
ghost use Rattle.bits.specs.WordPlaces.{places_of};
ghost use Rattle.alist_numbers.specs.Put.{Put, PutNumber, numbers_on};

// Each function puts its bytes from at on and returns where they end; what lies behind the text's end is not stored.
// Text and place stay a pair: contracts say what the lent text holds before and after, and a writer that lends it is no plainer.

// one byte
fn put_byte(text: &mut [u8], at: usize, b: u8) -> usize
    requires { at ≤ 100000000 }
    ensures { Put text.old at (b ∷ []) text.new result }
{
    if at < text.len() {
        text[at] = b;
        return at + 1;
    }
    at + 1
}

// the byte of a digit
fn digit(x: usize) -> u8
    requires { x < 10 }
    ensures { result ≡ 48 + x }
{
    48 + (x as u8)
}

// x in decimal, with one or two digits
fn put_two(text: &mut [u8], at: usize, x: usize) -> usize
    requires { (at ≤ 90000000)
        × (x < 100) }
    ensures { PutNumber x text.old at text.new result }
{
    if x < 10 {
        return put_byte(text, at, digit(x));
    }
    let next = put_byte(text, at, digit(x / 10));
    put_byte(text, next, digit(x % 10))
}

// x in decimal
fn put_number(text: &mut [u8], at: usize, x: usize) -> usize
    requires { (at ≤ 90000000)
        × (x < 10000) }
    ensures { PutNumber x text.old at text.new result }
{
    if x < 100 {
        return put_two(text, at, x);
    }
    let next = put_two(text, at, x / 100);
    let next = put_byte(text, next, digit(x / 10 % 10));
    put_byte(text, next, digit(x % 10))
}

// x on a line that begins at start: after a blank, unless it is the line's first number
pub fn put_next(text: &mut [u8], start: usize, at: usize, x: usize) -> usize
    requires { (at ≤ 80000000)
        × (x < 10000) }
    ensures { Put text.old at (numbers_on (eqb at start) (x ∷ [])) text.new result
        × (result ≤ at + 5) }
{
    if at == start {
        return put_number(text, at, x);
    }
    let next = put_byte(text, at, b' ');
    put_number(text, next, x)
}

// the places of one word, the lowest counted base, numbered from 1
fn put_word(text: &mut [u8], start: usize, at: usize, x: u64, base: usize) -> usize
    requires { (start ≤ at)
        × (at ≤ 70000000)
        × (base < 1024) }
    ensures { Put text.old at (numbers_on (eqb at start) (map suc (places_of base 64 x))) text.new result
        × (result ≤ at + 320) }
{
    let mut k = at;
    let mut y = x;
    // y loses its lowest one at each turn: nothing is counted
    while y != 0 {
        k = put_next(text, start, k, base + u64::trailing_zeros(y) as usize + 1);
        y = y & (y - 1);
    }
    k
}

// the places of row r, numbered from 1
pub fn put_row(text: &mut [u8], start: usize, at: usize, w: &[u64], r: usize) -> usize
    requires { (start ≤ at)
        × (at ≤ 60000000)
        × (r * 16 + 16 ≤ length w.now) }
    ensures { Put text.old at (numbers_on (eqb at start) (map suc (places_in (row w.now r)))) text.new result
        × (result ≤ at + 5120) }
{
    let mut k = at;
    for i in 0..16 {
        k = put_word(text, start, k, w[r * 16 + i], i * 64);
    }
    k
}

// zeros behind k numbers of a line, up to most numbers
pub fn put_zeros(text: &mut [u8], start: usize, at: usize, k: usize, most: usize) -> usize
    requires { (start ≤ at)
        × (at ≤ 70000000)
        × (most ≤ 1024) }
    ensures { Put text.old at (numbers_on (eqb at start) (replicate (most - k) 0)) text.new result
        × (result ≤ at + 5120) }
{
    let mut next = at;
    for i in k..most {
        next = put_next(text, start, next, 0);
    }
    next
}

// the line's end
pub fn end_line(text: &mut [u8], at: usize) -> usize
    requires { at ≤ 90000000 }
    ensures { Put text.old at (10 ∷ []) text.new result }
{
    put_byte(text, at, b'\n')
}
