// Two aerials: what each place comes to by two listeners' marks and packets, and the third block.
#![tactic(auto)]

ghost use Rattle.std.specs.Prelude.{◌≡◌, cond, map as each, ◌+◌, ◌*◌, ◌≤◌, ltb, length, take, drop};
ghost use Rattle.lists.specs.Lists.{same_list, written};
ghost use Rattle.erasure.specs.Offered.{held};
ghost use Rattle.aerials.specs.Aerials.{heard, packet_of, kind_of, kinds, merged};
ghost use Rattle.packets.specs.Filling.{Sized};

// The kinds of a place; those from SILENT on are lost. They are bytes, since they are written into the third map: memory is fixed.
pub const AGREED: u8 = 0;

pub const SINGLE: u8 = 1;

pub const SILENT: u8 = 2;

pub const CLASH: u8 = 3;

// What the place whose packets stand at at comes to: the packet goes into the third block, the kind is returned.
fn hear(
    mark1: u8,
    mark2: u8,
    block1: &[u8],
    block2: &[u8],
    block3: &mut [u8],
    at: usize,
    s: usize,
) -> u8
    requires { (at + s ≤ length block1.now)
        × (at + s ≤ length block2.now)
        × (at + s ≤ length block3.old) }
    ensures kind { result ≡ kind_of (heard mark1 mark2 (take s (drop at block1.now)) (take s (drop at block2.now))) }
    ensures packet { block3.new
        ≡ written block3.old at (packet_of s (heard mark1 mark2 (take s (drop at block1.now)) (take s (drop at block2.now)))) }
{
    let end = at + s;
    if mark1 == 0 {
        if mark2 != 0 {
            packets::copy(block3, at, block1, at, s);
            return SINGLE;
        }
        if block1[at..end] == block2[at..end] {
            packets::copy(block3, at, block1, at, s);
            return AGREED;
        }
        packets::clear(block3, at, s);
        return CLASH;
    }
    if mark2 == 0 {
        packets::copy(block3, at, block2, at, s);
        return SINGLE;
    }
    packets::clear(block3, at, s);
    SILENT
}

// All places: the merged packets in the third block, their kinds in the third map.
pub fn hear_all(
    n: usize,
    s: usize,
    block1: &[u8],
    map1: &[u8],
    block2: &[u8],
    map2: &[u8],
    block3: &mut [u8],
    map3: &mut [u8],
)
    requires { Sized n s block1.now map1.now
        × Sized n s block2.now map2.now
        × Sized n s block3.old map3.old }
    ensures block { block3.new
        ≡ (merged s
        (held block1.now map1.now)
        (held block2.now map2.now)
        n).block }
    ensures kinds { map3.new
        ≡ kinds s
        (held block1.now map1.now)
        (held block2.now map2.now)
        n }
{
    for p in 0..n {
        map3[p] = hear(map1[p], map2[p], block1, block2, block3, p * s, s);
    }
}

// Kinds become marks of lost places.
pub fn mark_lost(map: &mut [u8])
    ensures { map.new ≡ each (λ k. cond (ltb 1 k) 1 0) map.old }
{
    for kind in map.iter_mut() {
        *kind = u8::from(*kind > SINGLE);
    }
}
