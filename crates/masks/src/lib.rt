// The scan of masks over columns: fitted places and inverse at once.
#![tactic(auto)]

ghost use Rattle.std.specs.Prelude.{◌≡◌, List, ℕ, ◌+◌, ◌≤◌, ◌<◌, length, get_or, unwrap_or, IfSome};
ghost use Rattle.masks.specs.Dot.{dot};
ghost use Rattle.masks.specs.Scan.{Units, Lowest, mended, Mended, Tied, Scan};

// whether a mask sees a column
pub fn sees(mask: u32, col: u32) -> bool
    ensures { result ≡ dot mask col }
{
    u32::count_ones(mask & col) & 1 == 1
}

// the unit masks
pub fn units(masks: &mut [u32], g: usize)
    requires { (g ≤ length masks.old)
        × (g ≤ 32) }
    ensures { Units g masks.new }
{
    for i in 0..g {
        masks[i] = 1 << i;
    }
}

// the lowest free mask that sees the column
fn find(masks: &[u32], free: usize, c: u32) -> Option<usize>
    requires { free ≤ length masks.now }
    ensures lowest { Lowest masks.now free c (unwrap_or result free) }
    ensures free { IfSome result (λ i. i < free) }
{
    for i in 0..free {
        if sees(masks[i], c) {
            return Some(i);
        }
    }
    None
}

// v added into a mask that sees the column
fn mend_one(mask: u32, v: u32, c: u32) -> u32
    ensures { result ≡ mended v c mask }
{
    if sees(mask, c) { mask ^ v } else { mask }
}

// .. into each of g masks
fn mend(masks: &mut [u32], g: usize, v: u32, c: u32)
    requires { g ≤ length masks.old }
    ensures { Mended g v c masks.old masks.new }
{
    for i in 0..g {
        masks[i] = mend_one(masks[i], v, c);
    }
}

// mask i, which sees the column, becomes the last free one, k, and is added into every other that sees it
fn tie(masks: &mut [u32], g: usize, i: usize, k: usize, c: u32)
    requires { (g ≤ length masks.old)
        × (i ≤ k)
        × (k < g) }
    ensures { Tied g i k c masks.old masks.new }
{
    let v = masks[i];
    masks[i] = masks[k];
    mend(masks, g, v, c);
    masks[k] = v;
}

// one column: a free mask that sees it is tied to its place, if there is one; how many masks are then free
fn fit_one(masks: &mut [u32], fitted: &mut [u16], g: usize, free: usize, p: usize, c: u32) -> usize
    requires { (g ≤ length masks.old)
        × (g ≤ length fitted.old)
        × (free ≤ g)
        × (p < 1024) }
    ensures fewer { result ≤ free }
    ensures scan { (f : ℕ → ℕ) → (W : List ℕ) → f p ≡ c → Scan f W g (p + 1) free masks.old fitted.old
        → Scan f W g p result masks.new fitted.new }
{
    let Some(i) = find(masks, free, c) else {
        return free;
    };
    tie(masks, g, i, free - 1, c);
    fitted[free - 1] = p as u16;
    free - 1
}

// every column, from the highest place down; each mask is then its place's row of the inverse, places ascending
pub fn fit(col: &[u32], n: usize, g: usize, masks: &mut [u32], fitted: &mut [u16]) -> usize
    requires { (n ≤ length col.now)
        × (n ≤ 1024)
        × (g ≤ length masks.old)
        × (g ≤ length fitted.old) }
    ensures { (f : ℕ → ℕ) → (W : List ℕ) → ((p : ℕ) → p < n → f p ≡ get_or col.now p 0)
        → Scan f W g n g masks.old fitted.old → Scan f W g 0 result masks.new fitted.new }
{
    let mut free = g;
    for p in (0..n).rev() {
        free = fit_one(masks, fitted, g, free, p, col[p]);
    }
    free
}
