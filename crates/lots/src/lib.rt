// A place without a one drawn in rows of bits, and a one put there (RFC 5170).
#![tactic(auto)]

ghost use Rattle.std.specs.Prelude.{◌≡◌, Bool, true, set, MatchOption, IfSome, ◌++◌, map, ℕ, ◌+◌, ◌-◌, ◌%◌, ◌≤◌, ◌<◌, length, get_or, take, drop};
ghost use Rattle.lists.specs.Lists.{any_of, from};
ghost use Rattle.lots.specs.Grid.{free, free_entry, Put, Sought};

use draws::Generator;

// no one at (r, j)
fn vacant(w: &[u64], r: usize, j: usize) -> bool
    requires { (r < 512)
        × (j < 1024)
        × (length w.now ≡ 8192) }
    ensures { result ≡ free w.now j r }
{
    !bits::has_place(w, r, j)
}

// a one at (r, j), where there is none
fn put(w: &mut [u64], r: usize, j: usize)
    requires { (r < 512)
        × (j < 1024)
        × (length w.old ≡ 8192)
        × (free w.old j r ≡ true) }
    ensures { Put w.old r j w.new }
{
    bits::flip(w, r, j);
}

// draws below max until one passes, if there are draws enough; a rejected draw counts
fn draw_until<F: Fn(usize) -> bool>(draws: &mut Generator, max: usize, passes: F) -> Option<usize>
    requires bounds { (0 < max)
        × (max ≤ 10240) }
    requires callable { (v : ℕ) → v < max → F.pre passes v }
    ensures below { IfSome result (λ v. v < max) }
    ensures sought { (f : ℕ → Bool) → ((v : ℕ) (b : Bool) → v < max → F.post passes v b → b ≡ f v)
        → Sought max draws.old.raw draws.old.left f result draws.new.raw draws.new.left }
{
    while let Some(value) = draws.draw(max) {
        if passes(value) {
            return Some(value);
        }
    }
    None
}

// some entry of u from t to e − 1 has no one in column j
pub fn scan(w: &[u64], u: &[u16], t: usize, e: usize, j: usize) -> bool
    requires { (t ≤ e)
        × (e ≤ length u.now)
        × ((i : ℕ) → get_or u.now i 0 < 512)
        × (j < 1024)
        × (length w.now ≡ 8192) }
    ensures { result ≡ any_of (free w.now j) (drop t (take e u.now)) }
{
    for i in t..e {
        if vacant(w, usize::from(u[i]), j) {
            return true;
        }
    }
    false
}

// u[h] = h mod m for the first e entries
pub fn start_order(u: &mut [u16], e: usize, m: usize)
    requires { (e ≤ length u.old)
        × (0 < m)
        × (m ≤ 512) }
    ensures { u.new ≡ map (λ h. h % m) (from 0 e) ++ drop e u.old }
{
    for h in 0..e {
        u[h] = (h % m) as u16;
    }
}

// a draw below m of a row without a one in column j, and a one put there
pub fn by_row(w: &mut [u64], j: usize, m: usize, draws: &mut Generator) -> Option<usize>
    requires { (0 < m)
        × (m ≤ 512)
        × (j < 1024)
        × (length w.old ≡ 8192) }
    ensures { Sought m draws.old.raw draws.old.left (free w.old j) result draws.new.raw draws.new.left
        × MatchOption result (w.new ≡ w.old) (λ r. Put w.old r j w.new) }
{
    let r = draw_until(draws, m, |r| vacant(w, r, j))?;
    put(w, r, j);
    Some(r)
}

// the entry of u drawn gives the row of the one put, and takes the entry at t
pub fn by_order(
    w: &mut [u64],
    u: &mut [u16],
    t: usize,
    e: usize,
    j: usize,
    draws: &mut Generator,
) -> Option<usize>
    requires { (t < e)
        × (e ≤ 10240)
        × (e ≤ length u.old)
        × ((i : ℕ) → get_or u.old i 0 < 512)
        × (j < 1024)
        × (length w.old ≡ 8192) }
    ensures { Sought (e - t) draws.old.raw draws.old.left (free_entry w.old u.old t j) result draws.new.raw draws.new.left
        × MatchOption result
        ((w.new ≡ w.old) × (u.new ≡ u.old))
        (λ v. Put w.old (get_or u.old (t + v) 0) j w.new × (u.new ≡ set u.old (t + v) (get_or u.old t 0))) }
{
    let v = draw_until(draws, e - t, |v| vacant(w, usize::from(u[t + v]), j))?;
    let i = t + v;
    put(w, usize::from(u[i]), j);
    u[i] = u[t];
    Some(v)
}

// one draw below k, put in row i, which has no one
pub fn extra_any(w: &mut [u64], i: usize, k: usize, draws: &mut Generator) -> Option<usize>
    requires { (0 < k)
        × (k ≤ 1024)
        × (i < 512)
        × (length w.old ≡ 8192)
        × ((q : ℕ) → q < 1024 → free w.old q i ≡ true) }
    ensures { Sought k draws.old.raw draws.old.left (λ j. true) result draws.new.raw draws.new.left
        × MatchOption result (w.new ≡ w.old) (λ j. Put w.old i j w.new) }
{
    let j = draw_until(draws, k, |_| true)?;
    put(w, i, j);
    Some(j)
}

// a draw below k of a column without a one in row i, put there
pub fn extra_free(w: &mut [u64], i: usize, k: usize, draws: &mut Generator) -> Option<usize>
    requires { (0 < k)
        × (k ≤ 1024)
        × (i < 512)
        × (length w.old ≡ 8192) }
    ensures { Sought k draws.old.raw draws.old.left (λ j. free w.old j i) result draws.new.raw draws.new.left
        × MatchOption result (w.new ≡ w.old) (λ j. Put w.old i j w.new) }
{
    let j = draw_until(draws, k, |j| vacant(w, i, j))?;
    put(w, i, j);
    Some(j)
}
