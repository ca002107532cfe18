// Rows of 16 words in a work buffer: loading, flipping, adding, the highest place.
#![tactic(auto)]

ghost use Rattle.std.specs.Prelude.{◌≡◌, ℕ, ◌+◌, ◌*◌, ◌≤◌, ◌<◌, ◌^◌, length, get_or, take, drop};
ghost use Rattle.std.specs.Int.Bits.{bit_xor};
ghost use Rattle.lists.specs.Lists.{All};
ghost use Rattle.gf2.specs.Gf2.{bit, Short, Bits, row_of};
ghost use Rattle.bits.specs.Row.{row, places_in, above, RowPut};

// place p of row r is flipped
pub fn flip(w: &mut [u64], r: usize, p: usize)
    requires { (r * 16 + 16 ≤ length w.old)
        × (p < 1024) }
    ensures { RowPut w.old r (bit_xor (row w.old r) (2 ^ p)) w.new }
{
    let i = r * 16 + p / 64;
    w[i] = w[i] ^ (1 << (p % 64));
}

// row r has place p
pub fn has_place(w: &[u64], r: usize, p: usize) -> bool
    requires { (r * 16 + 16 ≤ length w.now)
        × (p < 1024) }
    ensures { result ≡ bit p (row w.now r) }
{
    (w[r * 16 + p / 64] >> (p % 64)) & 1 == 1
}

// how many places row r has
pub fn ones_of(w: &[u64], r: usize) -> usize
    requires { r * 16 + 16 ≤ length w.now }
    ensures { (result ≡ length (places_in (row w.now r)))
        × (result ≤ 1024) }
{
    let mut n = 0;
    for x in &w[r * 16..r * 16 + 16] {
        n += x.count_ones() as usize;
    }
    n
}

// row r becomes zero
pub fn clear(w: &mut [u64], r: usize)
    requires { r * 16 + 16 ≤ length w.old }
    ensures { RowPut w.old r 0 w.new }
{
    w[r * 16..r * 16 + 16].fill(0);
}

// some places become row r
pub fn load(w: &mut [u64], r: usize, places: &[u16])
    requires { (r * 16 + 16 ≤ length w.old)
        × All (λ p. p < 1024) places.now }
    ensures { RowPut w.old r (row_of places.now) w.new }
{
    clear(w, r);
    for p in places {
        flip(w, r, usize::from(*p));
    }
}

// the highest place of row r, which has none from l on
pub fn highest(w: &[u64], r: usize, l: usize) -> Option<usize>
    requires { (r * 16 + 16 ≤ length w.now)
        × (l ≤ 1024)
        × Short l (row w.now r) }
    ensures { Bits (row w.now r) (above result) }
{
    for j in (0..(l + 63) / 64).rev() {
        let x = w[r * 16 + j];
        if x != 0 {
            return Some(j * 64 + x.ilog2() as usize);
        }
    }
    None
}

// row a, which has no place from l on, is added into row b
pub fn add_low(w: &mut [u64], a: usize, b: usize, l: usize)
    requires { (a * 16 + 16 ≤ length w.old)
        × (b * 16 + 16 ≤ length w.old)
        × (l ≤ 1024)
        × Short l (row w.old a) }
    ensures { RowPut w.old b (bit_xor (row w.old a) (row w.old b)) w.new }
{
    let words = (l + 63) / 64;
    // by number: both rows lie in w
    for i in 0..words {
        w[b * 16 + i] = w[a * 16 + i] ^ w[b * 16 + i];
    }
}

// row a of another buffer is added into row b
pub fn add_from(w: &mut [u64], b: usize, from: &[u64], a: usize)
    requires { (b * 16 + 16 ≤ length w.old)
        × (a * 16 + 16 ≤ length from.now) }
    ensures { RowPut w.old b (bit_xor (row from.now a) (row w.old b)) w.new }
{
    for i in 0..16 {
        w[b * 16 + i] = from[a * 16 + i] ^ w[b * 16 + i];
    }
}
