// Lengths of a block and its map. Marks of lost places and of checks: whether one is over a bound, how many places are
// lost, zero bytes at each, and whether a check is to be summed.
#![tactic(auto)]

ghost use Rattle.std.specs.Prelude.{◌≡◌, true, false, ◌||◌, ◌*◌, ◌≤◌, ltb, length};
ghost use Rattle.lists.specs.Lists.{any_of};
ghost use Rattle.table.specs.FirstCause.{wrong_length};
ghost use Rattle.table.specs.Packets.{packets, joined};
ghost use Rattle.erasure.specs.Restoring.{tally, zero_lost};

use table::Table;

// a block and map that aren't of n places of s bytes
pub fn wrong_lengths(block: &[u8], map: &[u8], n: usize, s: usize) -> bool
    ensures { result ≡ (wrong_length (length block.now) (n * s) || wrong_length (length map.now) n) }
{
    n.checked_mul(s) != Some(block.len()) || map.len() != n
}

// a map byte over most
pub fn over(map: &[u8], most: u8) -> bool
    ensures { result ≡ any_of (ltb most) map.now }
{
    map.iter().any(|b| *b > most)
}

// how many map bytes are v
pub fn tally_of(map: &[u8], v: u8) -> u32
    requires { length map.now ≤ 1024 }
    ensures { result ≡ tally v map.now }
{
    // a sum of equal bytes, many at once: a filtered count asks of each, and guesses
    let mut k = 0;
    for b in map {
        if *b == v {
            k += 1;
        }
    }
    k
}

// zero bytes at every lost place
pub fn zero_lost(table: &Table, block: &mut [u8], map: &[u8])
    requires { (length block.old ≡ table.now.places * table.now.size)
        × (length map.now ≡ table.now.places) }
    ensures { block.new
        ≡ joined (zero_lost table.now.size map.now (packets table.now.size table.now.places block.old)) }
{
    for (p, mark) in map.iter().enumerate() {
        if *mark == 1 {
            packets::clear(block, p * table.size, table.size);
        }
    }
}

// whether a check with so many lost places is still to be summed: it has none, and restored none
pub fn to_sum(count: u16, used: u8) -> bool
    ensures { (result ≡ true → count ≡ 0)
        × (result ≡ false → count ≡ 0 → used ≡ 1) }
{
    count == 0 && used != 1
}
