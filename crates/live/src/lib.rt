// Live checks: how many hold each place, and the place in exactly one of them.
#![tactic(auto)]

ghost use Rattle.std.specs.Prelude.{◌≡◌, ◌≤◌, ◌<◌, eqb, length, get_or};
ghost use Rattle.lists.specs.Lists.{highest, All, Distinct};
ghost use Rattle.live.specs.Live.{Noted, Forgot, RaisedOver, found};

// check j, with these places, becomes live
pub fn note(count: &mut [u16], names: &mut [u16], places: &[u16], j: u16)
    requires places { All (λ p. p < length count.old) places.now }
    requires apart { Distinct places.now }
    requires names { length count.old ≤ length names.old }
    requires room { All (λ p. get_or count.old p 0 < 65535) places.now }
    ensures { Noted count.old names.old places.now j count.new names.new }
{
    for p in places {
        let p = usize::from(*p);
        count[p] += 1;
        names[p] ^= j;
    }
}

// check j is no longer live; one function for this and note would take a closure, and clauses on it longer than these lines
pub fn forget(count: &mut [u16], names: &mut [u16], places: &[u16], j: u16)
    requires places { All (λ p. p < length count.old) places.now }
    requires apart { Distinct places.now }
    requires names { length count.old ≤ length names.old }
    requires live { All (λ p. 0 < get_or count.old p 0) places.now }
    ensures { Forgot count.old names.old places.now j count.new names.new }
{
    for p in places {
        let p = usize::from(*p);
        count[p] -= 1;
        names[p] ^= j;
    }
}

// the highest place below n in exactly one live check
pub fn single(count: &[u16], n: usize) -> Option<usize>
    requires { n ≤ length count.now }
    ensures { result ≡ found (highest n (λ p. eqb (get_or count.now p 0) 1)) }
{
    // it breaks with the place found, or with none, as document 01 asks ("How to write each place")
    let mut p = n;
    loop {
        if p == 0 {
            break None;
        }
        p -= 1;
        if count[p] == 1 {
            break Some(p);
        }
    }
}

// top, raised above each of the places that lies in exactly one live check
pub fn raise(count: &[u16], places: &[u16], top: usize) -> usize
    requires places { All (λ p. p < length count.now) places.now }
    requires top { top ≤ length count.now }
    ensures { RaisedOver count.now places.now top result }
{
    let mut r = top;
    for p in places {
        let p = usize::from(*p);
        if count[p] == 1 {
            r = r.max(p + 1);
        }
    }
    r
}
