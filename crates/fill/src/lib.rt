// The left side of a staircase (RFC 5170), in rows of bits.
#![tactic(auto)]

ghost use Rattle.std.specs.Prelude.{◌≡◌, true, ℕ, ◌≤◌, ◌<◌, length, get_or};
ghost use Rattle.draws.specs.Generator.{modulus};
ghost use Rattle.fill.specs.Fill.{and_then, one as one_of, column as column_of, columns as columns_of, first_one, second_one, fill as fill_of};
ghost use Rattle.fill.specs.Held.{Both, Ready, Held, HeldRows, RowReady, Stepped, Steps, RowStepped, RowsDone, Ends, FilledIn};

use draws::Generator;

// ---- the columns

// one one in column j; false if the draws aren't enough
fn one(
    w: &mut [u64],
    u: &mut [u16],
    used: &mut usize,
    e: usize,
    m: usize,
    j: usize,
    draws: &mut Generator,
) -> bool
    requires { Ready m e j w.old u.old used.old draws.old.raw draws.old.left }
    ensures { Stepped m e j (one_of e m j)
        w.old u.old used.old draws.old.raw draws.old.left
        w.new u.new result used.new draws.new.raw draws.new.left }
{
    if lots::scan(w, u, *used, e, j) {
        let drawn = lots::by_order(w, u, *used, e, j, draws);
        *used += 1;
        return drawn.is_some();
    }
    lots::by_row(w, j, m, draws).is_some()
}

// some ones in column j
fn column(
    w: &mut [u64],
    u: &mut [u16],
    used: &mut usize,
    e: usize,
    m: usize,
    j: usize,
    ones: usize,
    draws: &mut Generator,
) -> bool
    requires { Ready m e j w.old u.old used.old draws.old.raw draws.old.left }
    ensures { Stepped m e j (column_of e m j ones)
        w.old u.old used.old draws.old.raw draws.old.left
        w.new u.new result used.new draws.new.raw draws.new.left }
{
    for i in 0..ones {
        if !one(w, u, used, e, m, j, draws) {
            return false;
        }
    }
    true
}

// all columns
fn columns(
    w: &mut [u64],
    u: &mut [u16],
    used: &mut usize,
    e: usize,
    m: usize,
    k: usize,
    ones: usize,
    draws: &mut Generator,
) -> bool
    requires { Held (Both k m e w.old u.old used.old draws.old.raw draws.old.left) }
    ensures { Steps (Both k m e w.old u.old used.old draws.old.raw draws.old.left)
        (columns_of e m ones 0 k) result
        (Both k m e w.new u.new used.new draws.new.raw draws.new.left) }
{
    for j in 0..k {
        if !column(w, u, used, e, m, j, ones, draws) {
            return false;
        }
    }
    true
}

// ---- the rows

// a one in row i, if it has none
fn first_one(w: &mut [u64], i: usize, k: usize, draws: &mut Generator) -> bool
    requires { RowReady k i w.old draws.old.raw draws.old.left }
    ensures { RowStepped k i (first_one k i)
        w.old draws.old.raw draws.old.left
        w.new result draws.new.raw draws.new.left }
{
    if bits::ones_of(w, i) == 0 {
        return lots::extra_any(w, i, k, draws).is_some();
    }
    true
}

// a second one in row i, if it has exactly one
fn second_one(w: &mut [u64], i: usize, k: usize, draws: &mut Generator) -> bool
    requires { RowReady k i w.old draws.old.raw draws.old.left }
    ensures { RowStepped k i (second_one k i)
        w.old draws.old.raw draws.old.left
        w.new result draws.new.raw draws.new.left }
{
    if bits::ones_of(w, i) == 1 {
        return lots::extra_free(w, i, k, draws).is_some();
    }
    true
}

// a first one and then a second one in row i, where they are missing
fn two_ones(w: &mut [u64], i: usize, k: usize, draws: &mut Generator) -> bool
    requires { RowReady k i w.old draws.old.raw draws.old.left }
    ensures { RowStepped k i (λ s. and_then (first_one k i s) (λ x. second_one k i x))
        w.old draws.old.raw draws.old.left
        w.new result draws.new.raw draws.new.left }
{
    if !first_one(w, i, k, draws) {
        return false;
    }
    second_one(w, i, k, draws)
}

// the extra ones of all rows
fn extras(w: &mut [u64], m: usize, k: usize, draws: &mut Generator) -> bool
    requires { HeldRows m k w.old draws.old.raw draws.old.left }
    ensures { RowsDone k m w.old draws.old.raw draws.old.left w.new result }
{
    for i in 0..m {
        if !two_ones(w, i, k, draws) {
            return false;
        }
    }
    true
}

// ---- the fill

// the fill, with room for the list u
fn fill_by(
    w: &mut [u64],
    u: &mut [u16],
    k: usize,
    m: usize,
    ones: usize,
    seed: usize,
    draws: usize,
) -> bool
    requires { (length w.old ≡ 8192)
        × ((p : ℕ) → get_or w.old p 0 ≡ 0)
        × (length u.old ≡ 10240)
        × ((p : ℕ) → get_or u.old p 0 ≡ 0)
        × (0 < k)
        × (k ≤ 1024)
        × (0 < m)
        × (m ≤ 512)
        × (ones ≤ 10)
        × (seed < modulus) }
    ensures { Ends (fill_of k m ones seed draws) result (FilledIn k m w.new) }
{
    let e = ones * k;
    lots::start_order(u, e, m);
    let mut generator = Generator {
        raw: seed,
        left: draws,
    };
    if !columns(w, u, &mut 0, e, m, k, ones, &mut generator) {
        return false;
    }
    extras(w, m, k, &mut generator)
}

// the left side of k columns and m rows, with at least `ones` ones a column, from the seed; false if it needs more than `draws` draws
pub fn fill(w: &mut [u64], k: usize, m: usize, ones: usize, seed: usize, draws: usize) -> bool
    requires { (length w.old ≡ 8192)
        × ((p : ℕ) → get_or w.old p 0 ≡ 0)
        × (0 < k)
        × (k ≤ 1024)
        × (0 < m)
        × (m ≤ 512)
        × (ones ≤ 10)
        × (seed < modulus) }
    ensures { Ends (fill_of k m ones seed draws) result (FilledIn k m w.new) }
{
    let mut u = [0u16; 10240];
    fill_by(w, &mut u, k, m, ones, seed, draws)
}
