// The sum of a check's packets, and its lowest byte that isn't zero.
#![tactic(auto)]

ghost use Rattle.std.specs.Prelude.{true, ◌≡◌, ◌+◌, ◌≤◌, ◌<◌, length, take, drop, ℕ, ◌≢◌, MatchOption, EachIndex, slice_index};
ghost use Rattle.gf2.specs.Gf2.{xor_group, add as add_vectors};
ghost use Rattle.packets.specs.Given.{Given, sum_at};
ghost use Rattle.sums.specs.Lowest.{LowestByte};
ghost use Rattle.table.specs.Packets.{lowest_nonzero};

// Zero only where every byte is.
fn or_of(a: &[u8]) -> u8
    ensures { result ≡ 0 → lowest_nonzero a.now ≡ length a.now }
{
    let mut o = 0;
    for x in a {
        o |= *x;
    }
    o
}

// Where the first byte stands that isn't zero.
fn first(a: &[u8]) -> Option<usize>
    ensures { MatchOption result
        (EachIndex a.now (λ k. slice_index a.now k ≡ 0))
        (λ i. (i < length a.now)
        × (slice_index a.now i ≢ 0)
        × ((k : ℕ) → k < i → slice_index a.now k ≡ 0)) }
{
    a.iter().position(|x| *x != 0)
}

// Where the lowest byte that isn't zero stands; all bytes or-ed first, which is faster where they are zero.
fn lowest(a: &[u8]) -> Option<usize>
    ensures { LowestByte a.now result }
{
    if or_of(a) == 0 {
        return None;
    }
    first(a)
}

// The bytes of a check's packets from off on, as many as acc has, are added into acc.
fn gather(acc: &mut [u8], places: &[u16], block: &[u8], n: usize, s: usize, off: usize)
    requires { Given places.now block.now n s
        × (off + length acc.old ≤ s) }
    ensures { acc.new
        ≡ add_vectors xor_group acc.old (take (length acc.old) (drop off (sum_at places.now block.now n s))) }
{
    let k = acc.len();
    for p in places {
        packets::add_from(acc, 0, block, usize::from(*p) * s + off, k);
    }
}

// The lowest nonzero byte among 64 of a check's sum, from off on.
fn lowest_in_chunk(places: &[u16], block: &[u8], n: usize, s: usize, off: usize) -> Option<usize>
    requires { Given places.now block.now n s
        × (off + 64 ≤ s) }
    ensures { LowestByte (take 64 (drop off (sum_at places.now block.now n s))) result }
{
    let mut acc = [0u8; 64];
    gather(&mut acc, places, block, n, s, off);
    lowest(&acc)
}

// The same among fewer than 64, the last: so many only the call knows, so that no const parameter joins the two.
fn lowest_in_rest(places: &[u16], block: &[u8], n: usize, s: usize, off: usize) -> Option<usize>
    requires { Given places.now block.now n s
        × ((off ≤ s) × (s < off + 64)) }
    ensures { LowestByte (drop off (sum_at places.now block.now n s)) result }
{
    let mut acc = [0u8; 64];
    let k = s - off;
    gather(&mut acc[..k], places, block, n, s, off);
    lowest(&acc[..k])
}

// a is or-ed into o: zero after that only where both were.
fn or_into(o: &mut [u8], a: &[u8])
    requires { length o.old ≡ length a.now }
    ensures { lowest_nonzero o.new ≡ length a.now
        → (lowest_nonzero o.old ≡ length a.now) × (lowest_nonzero a.now ≡ length a.now) }
{
    for i in 0..o.len() {
        o[i] |= a[i];
    }
}

// 64 bytes of a check's sum, from off on, are or-ed into o.
fn or_chunk(o: &mut [u8], places: &[u16], block: &[u8], n: usize, s: usize, off: usize)
    requires { Given places.now block.now n s
        × ((off + 64 ≤ s) × (length o.old ≡ 64)) }
    ensures { lowest_nonzero o.new ≡ 64
        → (lowest_nonzero o.old ≡ 64)
        × (lowest_nonzero (take 64 (drop off (sum_at places.now block.now n s))) ≡ 64) }
{
    let mut acc = [0u8; 64];
    gather(&mut acc, places, block, n, s, off);
    or_into(o, &acc);
}

// Whether the sum of a check's packets is zero, as far as one test of all pieces together tells.
fn vanishes(places: &[u16], block: &[u8], n: usize, s: usize) -> bool
    requires { Given places.now block.now n s }
    ensures { result ≡ true → lowest_nonzero (sum_at places.now block.now n s) ≡ s }
{
    let mut o = [0u8; 64];
    let mut i = 0;
    // the rest starts where this loop ends, so that i outlives it
    while 64 <= s - i {
        or_chunk(&mut o, places, block, n, s, i);
        i += 64;
    }
    if or_of(&o) == 0 {
        return lowest_in_rest(places, block, n, s, i).is_none();
    }
    false
}

// The lowest nonzero byte of the sum of a check's packets, if the sum isn't zero. Nothing is stored.
pub fn sum_of_check(places: &[u16], block: &[u8], n: usize, s: usize) -> Option<usize>
    requires { Given places.now block.now n s }
    ensures { LowestByte (sum_at places.now block.now n s) result }
{
    if vanishes(places, block, n, s) {
        return None;
    }
    let mut i = 0;
    // the rest starts where this loop ends, so that i outlives it
    while 64 <= s - i {
        if let Some(r) = lowest_in_chunk(places, block, n, s, i) {
            return Some(i + r);
        }
        i += 64;
    }
    let r = lowest_in_rest(places, block, n, s, i)?;
    Some(i + r)
}
