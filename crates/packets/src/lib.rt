// Packets: written, added, and restored from a check.
#![tactic(auto)]

ghost use Rattle.std.specs.Prelude.{◌≡◌, ◌+◌, ◌*◌, ◌≤◌, ◌<◌, length, set, take, drop, replicate};
ghost use Rattle.gf2.specs.Gf2.{xor_group, add as add_vectors};
ghost use Rattle.packets.specs.Given.{Given, sum_without};
ghost use Rattle.table.specs.Packets.{packets, joined, mixed};
ghost use Rattle.lists.specs.Lists.{written};

// A block's n and s are handed on beside it: contracts say what the block holds before and after, and a struct that lends it is no plainer.

// s zeros are written at at.
pub fn clear(b: &mut [u8], at: usize, s: usize)
    requires { at + s ≤ length b.old }
    ensures { b.new ≡ written b.old at (replicate s 0) }
{
    b[at..at + s].fill(0);
}

// t is written into b at at.
fn store(b: &mut [u8], at: usize, t: &[u8])
    requires { at + length t.now ≤ length b.old }
    ensures { b.new ≡ written b.old at t.now }
{
    // byte by byte: std's copy would have the archives for C need memmove
    for (i, x) in t.iter().enumerate() {
        b[at + i] = *x;
    }
}

// t is added into b at at.
fn mix(b: &mut [u8], at: usize, t: &[u8])
    requires { at + length t.now ≤ length b.old }
    ensures { b.new ≡ mixed b.old at t.now }
{
    for (i, x) in t.iter().enumerate() {
        b[at + i] ^= *x;
    }
}

// The s bytes of src at from are written into b at at.
pub fn copy(b: &mut [u8], at: usize, src: &[u8], from: usize, s: usize)
    requires { (at + s ≤ length b.old)
        × (from + s ≤ length src.now) }
    ensures { b.new ≡ written b.old at (take s (drop from src.now)) }
{
    let end = from + s;
    store(b, at, &src[from..end]);
}

// The s bytes of src at from are added into b at to.
pub fn add_from(b: &mut [u8], to: usize, src: &[u8], from: usize, s: usize)
    requires { (to + s ≤ length b.old)
        × (from + s ≤ length src.now) }
    ensures { b.new ≡ mixed b.old to (take s (drop from src.now)) }
{
    let end = from + s;
    mix(b, to, &src[from..end]);
}

// The bytes of the packets at some places other than skip, from off on, as many as acc has, are added into acc.
fn gather_others(
    acc: &mut [u8],
    places: &[u16],
    block: &[u8],
    n: usize,
    s: usize,
    skip: usize,
    off: usize,
)
    requires { Given places.now block.now n s
        × (off + length acc.old ≤ s) }
    ensures { acc.new
        ≡ add_vectors xor_group acc.old
        (take (length acc.old) (drop off (sum_without places.now block.now n s skip))) }
{
    let k = acc.len();
    for q in places {
        let q = usize::from(*q);
        if q != skip {
            add_from(acc, 0, block, q * s + off, k);
        }
    }
}

// 64 bytes of the packet at place p, from off on, become those of the sum at the places other than skip.
fn restore_chunk(
    places: &[u16],
    block: &mut [u8],
    n: usize,
    s: usize,
    skip: usize,
    p: usize,
    off: usize,
)
    requires { Given places.now block.old n s
        × ((p < n) × (off + 64 ≤ s)) }
    ensures { block.new
        ≡ written block.old (p * s + off) (take 64 (drop off (sum_without places.now block.old n s skip))) }
{
    let mut acc = [0u8; 64];
    gather_others(&mut acc, places, block, n, s, skip, off);
    store(block, p * s + off, &acc);
}

// The same for fewer than 64, the last: so many only the call knows, so that no const parameter joins the two.
fn restore_rest(
    places: &[u16],
    block: &mut [u8],
    n: usize,
    s: usize,
    skip: usize,
    p: usize,
    off: usize,
)
    requires { Given places.now block.old n s
        × ((p < n) × ((off ≤ s) × (s < off + 64))) }
    ensures { block.new
        ≡ written block.old (p * s + off) (drop off (sum_without places.now block.old n s skip)) }
{
    let mut acc = [0u8; 64];
    let k = s - off;
    gather_others(&mut acc[..k], places, block, n, s, skip, off);
    store(block, p * s + off, &acc[..k]);
}

// The packet at place p becomes the sum of the packets at some places other than skip: at the check's others, where skip is p.
pub fn restore(places: &[u16], block: &mut [u8], n: usize, s: usize, skip: usize, p: usize)
    requires { Given places.now block.old n s
        × (p < n) }
    ensures { block.new
        ≡ joined (set (packets s n block.old) p (sum_without places.now block.old n s skip)) }
{
    let mut i = 0;
    // the rest starts where this loop ends, so that i outlives it
    while 64 <= s - i {
        restore_chunk(places, block, n, s, skip, p, i);
        i += 64;
    }
    restore_rest(places, block, n, s, skip, p, i);
}
