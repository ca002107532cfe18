// Entering: what is carried over to a longer table, and what has arrived since.
#![tactic(auto)]

ghost use Rattle.std.specs.Prelude.{◌≡◌, ◌+◌, ◌≤◌, ◌<◌, length, take, drop};
ghost use Rattle.entering.specs.Entering.{entry, mark_of, packet_of, carried_mark, entered};
ghost use Rattle.erasure.specs.Offered.{held};
ghost use Rattle.lists.specs.Lists.{written};
ghost use Rattle.packets.specs.Filling.{Sized};

// A mark of the map: received, lost.
const RECEIVED: u8 = 0;

const LOST: u8 = 1;

// the mark that place p is carried with; those from n on are new
fn carried(map: &[u8], n: usize, p: usize) -> u8
    requires { p < length map.now }
    ensures { result ≡ carried_mark n map.now p }
{
    if p < n {
        return map[p];
    }
    LOST
}

// The place whose packets stand at at: an arrival goes into the block where the place is lost. Its mark is returned.
fn enter(carried: u8, arrived: u8, block: &mut [u8], arrivals: &[u8], at: usize, s: usize) -> u8
    requires { (at + s ≤ length block.old)
        × (at + s ≤ length arrivals.now) }
    ensures mark { result
        ≡ mark_of (entry carried arrived (take s (drop at block.old)) (take s (drop at arrivals.now))) }
    ensures packet { block.new
        ≡ written block.old at
        (packet_of s (entry carried arrived (take s (drop at block.old)) (take s (drop at arrivals.now)))) }
{
    if carried == LOST {
        if arrived == RECEIVED {
            packets::copy(block, at, arrivals, at, s);
            return RECEIVED;
        }
        packets::clear(block, at, s);
        return LOST;
    }
    carried
}

// All k places, of which n are old.
pub fn enter_all(
    n: usize,
    k: usize,
    s: usize,
    block: &mut [u8],
    map: &mut [u8],
    arrivals: &[u8],
    arrived: &[u8],
)
    requires { Sized k s block.old map.old
        × Sized k s arrivals.now arrived.now }
    ensures block { block.new
        ≡ (entered s n
        (held block.old map.old)
        (held arrivals.now arrived.now)
        k).block }
    ensures map { map.new
        ≡ (entered s n
        (held block.old map.old)
        (held arrivals.now arrived.now)
        k).map }
{
    for p in 0..k {
        let mark = carried(map, n, p);
        map[p] = enter(mark, arrived[p], block, arrivals, p * s, s);
    }
}
