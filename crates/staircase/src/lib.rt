// The maker of staircase tables (document 02, C-11).
#![tactic(auto)]

ghost use Rattle.std.specs.Prelude.{◌≡◌, false, ℕ, ◌+◌, ◌*◌, ◌-◌, ◌≤◌, ◌<◌, length, get_or};
ghost use Rattle.std.specs.Int.Bits.{bit_xor};
ghost use Rattle.gf2.specs.Gf2.{row_of};
ghost use Rattle.table.specs.Table.{beyond};
ghost use Rattle.bits.specs.Row.{row, RowPut};
ghost use Rattle.making.specs.Making.{table_words, make_answer_of};
ghost use Rattle.staircase.specs.Stairs.{stair};
ghost use Rattle.staircase.specs.Staircase.{bad_parameters, staircase_answer, staircase_table_after};
ghost use Rattle.staircase.specs.Staired.{Staired};

use refusals::Refusal;
use table::{MOST_ONES, MOST_WORDS};

// the limits of the ones in a source column
pub const LEAST_PER_COLUMN: usize = 3;

pub const MOST_PER_COLUMN: usize = 10;

// the greatest seed
pub const MOST_SEED: usize = 2147483646;

// the most draws, rejected ones counted
pub const MOST_DRAWS: usize = 65536;

// the words of the rows of bits
const ROW_WORDS: usize = 8192;

// 11, but for the draws
fn bad_parameters(k: usize, n: usize, ones: usize, seed: usize) -> bool
    ensures { result ≡ bad_parameters k n ones seed }
{
    if k == 0 {
        return true;
    }
    if n <= k {
        return true;
    }
    if ones < LEAST_PER_COLUMN {
        return true;
    }
    if MOST_PER_COLUMN < ones {
        return true;
    }
    if n - k < ones {
        return true;
    }
    if seed == 0 {
        return true;
    }
    MOST_SEED < seed
}

// the stair of check i
fn put_stair(w: &mut [u64], k: usize, i: usize)
    requires { (i * 16 + 16 ≤ length w.old)
        × (k + i < 1024) }
    ensures { RowPut w.old i (bit_xor (row w.old i) (row_of (stair k i))) w.new }
{
    bits::flip(w, i, k + i);
    if 0 < i {
        bits::flip(w, i, k + i - 1);
    }
}

// the staircase behind m rows
fn put_stairs(w: &mut [u64], k: usize, m: usize)
    requires { (m * 16 ≤ length w.old)
        × (k + m ≤ 1024) }
    ensures { Staired k m w.old w.new }
{
    for i in 0..m {
        put_stair(w, k, i);
    }
}

// the fill, the staircase, and the table if no check is too heavy; w is zero
fn make_in(
    w: &mut [u64],
    k: usize,
    n: usize,
    ones: usize,
    seed: usize,
    s: usize,
    table: &mut [u16],
) -> Result<u32, Refusal>
    requires rows { (length w.old ≡ 8192)
        × ((p : ℕ) → get_or w.old p 0 ≡ 0) }
    requires parameters { bad_parameters k n ones seed ≡ false }
    requires limits { beyond n s (n - k) ≡ false }
    requires room { length table.old ≡ table_words }
    ensures answer { make_answer_of result ≡ staircase_answer k n ones seed s table.old }
    ensures table { table.new ≡ staircase_table_after k n ones seed s table.old }
{
    let m = n - k;
    if !fill::fill(w, k, m, ones, seed, MOST_DRAWS) {
        return Err(Refusal::Staircase);
    }
    put_stairs(w, k, m);
    let Some(total) = making::weigh(w, m) else {
        return Err(Refusal::Lengths);
    };
    if MOST_ONES < total {
        return Err(Refusal::Lengths);
    }
    let length = making::write(table, n, s, w, m, total);
    Ok(length as u32)
}

// the same, with rows of zeros
fn make_table(
    k: usize,
    n: usize,
    ones: usize,
    seed: usize,
    s: usize,
    table: &mut [u16],
) -> Result<u32, Refusal>
    requires parameters { bad_parameters k n ones seed ≡ false }
    requires limits { beyond n s (n - k) ≡ false }
    requires room { length table.old ≡ table_words }
    ensures answer { make_answer_of result ≡ staircase_answer k n ones seed s table.old }
    ensures table { table.new ≡ staircase_table_after k n ones seed s table.old }
{
    let mut w = [0u64; ROW_WORDS];
    make_in(&mut w, k, n, ones, seed, s, table)
}

// the staircase's table (RFC 5170) of k source packets among n packets of s bytes, with at least so many ones in a source column, from
// the seed
pub fn make(
    k: usize,
    n: usize,
    ones: usize,
    seed: usize,
    s: usize,
    table: &mut [u16],
) -> Result<u32, Refusal>
    ensures answer { make_answer_of result ≡ staircase_answer k n ones seed s table.old }
    ensures table { table.new ≡ staircase_table_after k n ones seed s table.old }
{
    if bad_parameters(k, n, ones, seed) {
        return Err(Refusal::Staircase);
    }
    if table::beyond(n, s, n - k) {
        return Err(Refusal::Limits);
    }
    if table.len() != MOST_WORDS {
        return Err(Refusal::Buffer);
    }
    make_table(k, n, ones, seed, s, table)
}
