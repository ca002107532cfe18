// The least set of lost places for a place that stays lost: solving by the rows that lead places, from the lowest bit up.
#![tactic(auto)]

ghost use Rattle.std.specs.Prelude.{◌≡◌, ℕ, ◌+◌, ◌-◌, ◌*◌, ◌≤◌, ◌<◌, length, get_or};
ghost use Rattle.gf2.specs.Gf2.{Bits};
ghost use Rattle.gf2.specs.Separate.{meets};
ghost use Rattle.bits.specs.Front.{Front};
ghost use Rattle.bits.specs.Row.{row};
ghost use Rattle.rows.specs.Leads.{leads};
ghost use Rattle.reasons.specs.LeastBits.{even_bits};
ghost use Rattle.reasons.specs.Noting.{places_of};
ghost use Rattle.least.specs.Solved.{in_set, Solved};

use table::MOST_PLACES;

// row r has an odd number of the set's bits below l
fn meets_set(w: &[u64], r: usize, set: &[bool], l: usize) -> bool
    requires { (r * 16 + 16 ≤ length w.now)
        × (l ≤ length set.now)
        × (l ≤ 1024) }
    ensures { result ≡ meets (in_set set.now) l (row w.now r) }
{
    let mut odd = false;
    for q in 0..l {
        if set[q] && bits::has_place(w, r, q) {
            odd = !odd;
        }
    }
    odd
}

// a bit that leads a row is in the set if the row's lower bits meet it oddly; the others stay as they are
fn solve_set(w: &[u64], owner: &[u16], n: usize, set: &mut [bool])
    requires rows { ((p : ℕ) → get_or owner.now p 0 * 16 ≤ length w.now)
        × ((p : ℕ) → 0 < get_or owner.now p 0 → Bits (row w.now (get_or owner.now p 0 - 1)) (p + 1)) }
    requires room { (n ≤ length owner.now)
        × (n ≤ length set.old)
        × (n ≤ 1024) }
    ensures { Solved (leads w.now owner.now) n set.old set.new }
{
    for q in 0..n {
        let o = usize::from(owner[q]);
        if o != 0 {
            set[q] = meets_set(w, o - 1, set, q);
        }
    }
}

// the places of the set, ascending, and how many
fn write_places(set: &[bool], n: usize, list: &mut [u16]) -> usize
    requires { (n ≤ length set.now)
        × (n ≤ length list.old)
        × (n ≤ 1024) }
    ensures list { Front (places_of n (in_set set.now)) list.old list.new result }
    ensures few { result ≤ n }
{
    let mut c = 0;
    for p in 0..n {
        if set[tracing::bit_of(p, n)] {
            list[c] = p as u16;
            c += 1;
        }
    }
    c
}

// The set with bit f, without the other bits that lead no row, and with those that lead one as their rows ask: its places, written in front,
// and how many.
pub fn list_places(w: &[u64], owner: &[u16], n: usize, f: usize, list: &mut [u16]) -> usize
    requires rows { ((p : ℕ) → get_or owner.now p 0 * 16 ≤ length w.now)
        × ((p : ℕ) → 0 < get_or owner.now p 0 → Bits (row w.now (get_or owner.now p 0 - 1)) (p + 1)) }
    requires room { (n ≤ length owner.now)
        × (n ≤ length list.old)
        × (n ≤ 1024)
        × (f < n) }
    ensures list { Front (places_of n (even_bits n (leads w.now owner.now) f)) list.old list.new result }
    ensures few { result ≤ n }
{
    let mut set = [false; MOST_PLACES];
    set[f] = true;
    solve_set(w, owner, n, &mut set);
    write_places(&set, n, list)
}
