// One bad packet among good ones: the received place that is blamed where the old repair meets a contradiction.
#![tactic(auto)]

ghost use Rattle.std.specs.Prelude.{◌≡◌, ◌*◌, ◌≤◌, ◌<◌, length, MatchOption};
ghost use Rattle.table.specs.Packets.{bytes_at};
ghost use Rattle.table.specs.Table.{at_size};
ghost use Rattle.suspects.specs.Blame.{suspect, only_suspect};
ghost use Rattle.trials.specs.Cleared.{Cleared};
ghost use Rattle.blame.specs.Trying.{Narrow, Next, place_of};

use table::{MOST_PLACES, MOST_WORDS, Table};
use trials::try_place;

// Whether place p is a suspect, tried on one byte position first: a place that is no suspect there is none at all. small
// is the table with packets of one byte, column that byte position of the block.
fn is_suspect(
    table: &Table,
    small: &Table,
    block: &mut [u8],
    map: &mut [u8],
    column: &mut [u8],
    p: usize,
) -> bool
    requires block { Cleared table.now.places table.now.size block.old map.old }
    requires narrow { Narrow table.now.words.now table.now.places table.now.size block.old small.now.words.now column.old }
    requires place { p < table.now.places }
    ensures suspect { result ≡ suspect table.now.words.now block.old map.old p }
    ensures block { block.new ≡ block.old }
    ensures map { map.new ≡ map.old }
    ensures column { column.new ≡ column.old }
{
    if try_place(small, column, map, p) {
        return try_place(table, block, map, p);
    }
    false
}

// The lowest suspect from a place on.
fn next_suspect(
    table: &Table,
    small: &Table,
    block: &mut [u8],
    map: &mut [u8],
    column: &mut [u8],
    first: usize,
) -> Option<usize>
    requires block { Cleared table.now.places table.now.size block.old map.old }
    requires narrow { Narrow table.now.words.now table.now.places table.now.size block.old small.now.words.now column.old }
    ensures next { MatchOption result
        (Next (suspect table.now.words.now block.old map.old) first table.now.places table.now.places)
        (λ p. (p < table.now.places) × Next (suspect table.now.words.now block.old map.old) first table.now.places p) }
    ensures block { block.new ≡ block.old }
    ensures map { map.new ≡ map.old }
    ensures column { column.new ≡ column.old }
{
    for p in first..table.places {
        if is_suspect(table, small, block, map, column, p) {
            return Some(p);
        }
    }
    None
}

// the table with packets of one byte
fn narrow_table(t: &[u16], small: &mut [u16])
    requires { (length small.old ≡ length t.now)
        × (3 ≤ length t.now) }
    ensures { small.new ≡ at_size 1 t.now }
{
    // word by word: std's copy would have the archive for C need memmove
    for i in 0..t.len() {
        small[i] = t[i];
    }
    small[2] = 1;
}

// one byte position of a block
fn take_column(table: &Table, block: &[u8], byte: usize, column: &mut [u8])
    requires { (length block.now ≡ table.now.places * table.now.size)
        × (length column.old ≡ table.now.places)
        × (byte < table.now.size) }
    ensures { column.new ≡ bytes_at table.now.size table.now.places byte block.now }
{
    for p in 0..table.places {
        column[p] = block[p * table.size + byte];
    }
}

// The only suspect, by one byte position of the block; small and column are room for it.
fn search(
    table: &Table,
    block: &mut [u8],
    map: &mut [u8],
    byte: usize,
    small: &mut [u16],
    column: &mut [u8],
) -> Option<usize>
    requires block { Cleared table.now.places table.now.size block.old map.old }
    requires byte { byte < table.now.size }
    requires small { length small.old ≡ length table.now.words.now }
    requires column { length column.old ≡ table.now.places }
    ensures only { place_of result ≡ only_suspect table.now.words.now block.old map.old }
    ensures block { block.new ≡ block.old }
    ensures map { map.new ≡ map.old }
{
    narrow_table(table.words, small);
    take_column(table, block, byte, column);
    let small = Table {
        words: small,
        checks: table.checks,
        places: table.places,
        size: 1,
    };
    let p = next_suspect(table, &small, block, map, column, 0)?;
    match next_suspect(table, &small, block, map, column, p + 1) {
        Some(_) => None,
        None => Some(p),
    }
}

// The only suspect; the byte position at which a check fails leaves few places to be tried whole. Lost
// places are zero beforehand; block and map are as they were afterwards.
pub fn only_suspect(table: &Table, block: &mut [u8], map: &mut [u8], byte: usize) -> Option<usize>
    requires block { Cleared table.now.places table.now.size block.old map.old }
    requires byte { byte < table.now.size }
    ensures only { place_of result ≡ only_suspect table.now.words.now block.old map.old }
    ensures block { block.new ≡ block.old }
    ensures map { map.new ≡ map.old }
{
    let words = table.words.len();
    let mut small = [0u16; MOST_WORDS];
    let mut column = [0u8; MOST_PLACES];
    search(
        table,
        block,
        map,
        byte,
        &mut small[..words],
        &mut column[..table.places],
    )
}
