// The live check with the most places in exactly two live checks.
#![tactic(auto)]

ghost use Rattle.std.specs.Prelude.{◌≡◌, ◌≤◌, ◌<◌, length};
ghost use Rattle.lists.specs.Lists.{All};
ghost use Rattle.table.specs.Checks.{check};
ghost use Rattle.freed.specs.Most.{lives, most_from, twos};

use table::Located;

// how many of the places lie in exactly two live checks
#[tactic(auto, unfolding(crate::specs::Most::twos))]
fn freed_in(count: &[u16], places: &[u16]) -> usize
    requires { All (λ p. p < length count.now) places.now }
    ensures freed { result ≡ twos count.now places.now }
    ensures most { result ≤ length places.now }
{
    let mut r = 0;
    for p in places {
        let p = usize::from(*p);
        if count[p] == 2 {
            r += 1;
        }
    }
    r
}

// the first live check with the most places in exactly two live checks; the number of checks where none is live, which callers rule
// out, so that there is no None to handle
pub fn most_freed_of(located: &Located, live: &[u8], count: &[u16]) -> usize
    requires places { length count.now ≡ located.now.table.places }
    requires flags { located.now.table.checks ≤ length live.now }
    ensures { result ≡ most_from (λ j. twos count.now (check located.now.table.words.now located.now.table.checks j))
        located.now.table.checks 0 (lives live.now 0 located.now.table.checks) }
{
    let m = located.table.checks;
    let mut best = m;
    let mut w = 0;
    for i in 0..m {
        if live[i] == 1 {
            let k = freed_in(count, located.check(i));
            if w <= k {
                best = i;
                w = k + 1;
            }
        }
    }
    best
}
