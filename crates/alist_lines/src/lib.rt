// The lines of an alist text, from rows of bits.
#![tactic(auto)]

ghost use Rattle.std.specs.Prelude.{[], ◌∷◌, map, suc, ◌+◌, ◌*◌, ◌≤◌, ◌<◌, length};
ghost use Rattle.bits.specs.Row.{row, places_in, rows_in};
ghost use Rattle.alist.specs.AlistText.{number_line, number_lines, padded};
ghost use Rattle.alist_numbers.specs.Put.{Put, PutBelow};
ghost use Rattle.alist_lines.specs.Lines.{padded_lists, head_lines, lines};

use alist_numbers::{end_line, put_next, put_row, put_zeros};

// ---- lines

// two numbers
fn put_pair(text: &mut [u8], at: usize, x: usize, y: usize) -> usize
    requires { (at ≤ 60000000)
        × (x < 10000)
        × (y < 10000) }
    ensures { Put text.old at (number_line (x ∷ y ∷ [])) text.new result
        × (result ≤ at + 11) }
{
    let next = put_next(text, at, at, x);
    let next = put_next(text, at, next, y);
    end_line(text, next)
}

// the weights of the first count rows
fn put_weights(text: &mut [u8], at: usize, w: &[u64], count: usize) -> usize
    requires { (at ≤ 60000000)
        × (count ≤ 1024)
        × (count * 16 ≤ length w.now) }
    ensures { Put text.old at (number_line (map length (rows_in w.now count))) text.new result
        × (result ≤ at + 5121) }
{
    let mut next = at;
    for c in 0..count {
        next = put_next(text, at, next, bits::ones_of(w, c));
    }
    end_line(text, next)
}

// the places of row c, padded
fn put_list(text: &mut [u8], at: usize, w: &[u64], c: usize, most: usize) -> usize
    requires { (at ≤ 50000000)
        × (c * 16 + 16 ≤ length w.now)
        × (most ≤ 1024) }
    ensures { Put text.old at (number_line (padded most (map suc (places_in (row w.now c))))) text.new result
        × (result ≤ at + 10241) }
{
    let next = put_row(text, at, at, w, c);
    let next = put_zeros(text, at, next, bits::ones_of(w, c), most);
    end_line(text, next)
}

// the places of each of the first count rows
fn put_lists(text: &mut [u8], at: usize, w: &[u64], count: usize, most: usize) -> usize
    requires { (at ≤ 30000000)
        × (count ≤ 1024)
        × (count * 16 ≤ length w.now)
        × (most ≤ 1024) }
    ensures { Put text.old at (number_lines (padded_lists w.now count most)) text.new result
        × (result ≤ at + 10241 * count) }
{
    let mut next = at;
    for c in 0..count {
        next = put_list(text, next, w, c, most);
    }
    next
}

// ---- the text

// sizes, greatest weights and weights
fn put_head(
    text: &mut [u8],
    columns: &[u64],
    n: usize,
    a: usize,
    rows: &[u64],
    m: usize,
    b: usize,
) -> usize
    requires { (n ≤ 1024)
        × (n * 16 ≤ length columns.now)
        × (a ≤ 1024)
        × (m ≤ 512)
        × (m * 16 ≤ length rows.now)
        × (b ≤ 1024) }
    ensures { Put text.old 0 (number_lines (head_lines columns.now n a rows.now m b)) text.new result
        × (result ≤ 11000) }
{
    let next = put_pair(text, 0, n, m);
    let next = put_pair(text, next, a, b);
    let next = put_weights(text, next, columns, n);
    put_weights(text, next, rows, m)
}

// all lines, with greatest weights a and b
fn put_lines(
    text: &mut [u8],
    columns: &[u64],
    n: usize,
    a: usize,
    rows: &[u64],
    m: usize,
    b: usize,
) -> usize
    requires { (n ≤ 1024)
        × (n * 16 ≤ length columns.now)
        × (a ≤ 1024)
        × (m ≤ 512)
        × (m * 16 ≤ length rows.now)
        × (b ≤ 1024) }
    ensures { Put text.old 0 (number_lines (lines columns.now n a rows.now m b)) text.new result
        × (result ≤ 16000000) }
{
    let next = put_head(text, columns, n, a, rows, m, b);
    let next = put_lists(text, next, columns, n, a);
    put_lists(text, next, rows, m, b)
}

// the same, but nothing is stored from limit on
pub fn put_text(
    text: &mut [u8],
    limit: usize,
    columns: &[u64],
    n: usize,
    a: usize,
    rows: &[u64],
    m: usize,
    b: usize,
) -> usize
    requires { (limit ≤ length text.old)
        × (n ≤ 1024)
        × (n * 16 ≤ length columns.now)
        × (a ≤ 1024)
        × (m ≤ 512)
        × (m * 16 ≤ length rows.now)
        × (b ≤ 1024) }
    ensures { PutBelow limit text.old (number_lines (lines columns.now n a rows.now m b)) text.new result
        × (result ≤ 16000000) }
{
    put_lines(&mut text[..limit], columns, n, a, rows, m, b)
}
