// Rows of bits into a table (document 02, C-11 and C-15).
#![tactic(auto)]

ghost use Rattle.std.specs.Prelude.{◌≡◌, [], ◌∷◌, map, ◌+◌, ◌*◌, ◌≤◌, ◌<◌, length, unwrap_or};
ghost use Rattle.lists.specs.Lists.{Wrote};
ghost use Rattle.table.specs.LookOver.{weighed};
ghost use Rattle.table.specs.Table.{ones as ones_of};
ghost use Rattle.bits.specs.Row.{row, places_in, rows_in};
ghost use Rattle.bits.specs.WordPlaces.{places_of};
ghost use Rattle.making.specs.Making.{table_words};
ghost use Rattle.making.specs.Written.{flat, table_of};

use table::MOST_WEIGHT;

// the ones of the first m rows, if none has more than 64
pub fn weigh(w: &[u64], m: usize) -> Option<usize>
    requires { (m ≤ 512)
        × (m * 16 ≤ length w.now) }
    ensures { unwrap_or result 65536 ≡ weighed (map length (rows_in w.now m)) }
{
    let mut sum = 0;
    for i in 0..m {
        let x = bits::ones_of(w, i);
        if MOST_WEIGHT < x {
            return None;
        }
        sum += x;
    }
    Some(sum)
}

// the first four numbers
fn write_head(table: &mut [u16], n: usize, s: usize, m: usize)
    requires { (4 ≤ length table.old)
        × (n ≤ 1024)
        × (s ≤ 1024)
        × (m ≤ 512) }
    ensures { Wrote table.old 0 (2 ∷ n ∷ s ∷ m ∷ []) table.new 4 }
{
    table[0] = 2;
    table[1] = n as u16;
    table[2] = s as u16;
    table[3] = m as u16;
}

// the weights of the first m rows
fn write_weights(table: &mut [u16], w: &[u64], m: usize)
    requires { (4 + m ≤ length table.old)
        × (m * 16 ≤ length w.now) }
    ensures { Wrote table.old 4 (map length (rows_in w.now m)) table.new (4 + m) }
{
    for i in 0..m {
        table[4 + i] = bits::ones_of(w, i) as u16;
    }
}

// the places of one word, the lowest counted base
fn write_word(table: &mut [u16], at: usize, x: u64, base: usize) -> usize
    requires { (at + length (places_of base 64 x) ≤ length table.old)
        × (base < 1024) }
    ensures { Wrote table.old at (places_of base 64 x) table.new result }
{
    let mut k = at;
    let mut y = x;
    // y loses its lowest one at each turn: nothing is counted
    while y != 0 {
        table[k] = (base + u64::trailing_zeros(y) as usize) as u16;
        k += 1;
        y = y & (y - 1);
    }
    k
}

// the places of row r
fn write_row(table: &mut [u16], at: usize, w: &[u64], r: usize) -> usize
    requires { (at + length (places_in (row w.now r)) ≤ length table.old)
        × (r * 16 + 16 ≤ length w.now) }
    ensures { Wrote table.old at (places_in (row w.now r)) table.new result }
{
    let mut k = at;
    for i in 0..16 {
        k = write_word(table, k, w[r * 16 + i], i * 64);
    }
    k
}

// the places of the first m rows
fn write_rows(table: &mut [u16], at: usize, w: &[u64], m: usize) -> usize
    requires { (at + length (flat (rows_in w.now m)) ≤ length table.old)
        × (m * 16 ≤ length w.now) }
    ensures { Wrote table.old at (flat (rows_in w.now m)) table.new result }
{
    let mut k = at;
    for i in 0..m {
        k = write_row(table, k, w, i);
    }
    k
}

// the table of n places, packets of s bytes and the first m rows, whose ones are these
pub fn write(table: &mut [u16], n: usize, s: usize, w: &[u64], m: usize, ones: usize) -> usize
    requires { (ones ≡ ones_of (rows_in w.now m))
        × (ones ≤ 6144)
        × (length table.old ≡ table_words)
        × (n ≤ 1024)
        × (s ≤ 1024)
        × (m ≤ 512)
        × (m * 16 ≤ length w.now) }
    ensures { Wrote table.old 0 (table_of n s (rows_in w.now m)) table.new result }
{
    write_head(table, n, s, m);
    write_weights(table, w, m);
    table[4 + m] = ones as u16;
    write_rows(table, 5 + m, w, m)
}
