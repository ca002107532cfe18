// The sections of a plan's steps as numbers: one check, a pass over the solved checks, the checks set aside, the fitted places.
#![tactic(auto)]

ghost use Rattle.std.specs.Prelude.{◌≡◌, ◌≤◌, ◌<◌, length, take};
ghost use Rattle.lists.specs.Lists.{All};
ghost use Rattle.table.specs.Table.{most_places, number, places};
ghost use Rattle.rule.specs.Buffers.{mask_width};
ghost use Rattle.emit.specs.Emit.{Room, WroteSteps, marking, Readable, Numbers, Below};
ghost use Rattle.emit.specs.Emit.{sum_steps, check_steps, solve_steps, whole_steps, aside_steps, fit_steps, fitting_rows};

use plan::Step;
use table::{Located, MOST_PLACES};

// ---- marks, a byte a place

// the first count of some places are marked
pub fn mark(marks: &mut [u8], places: &[u16], count: usize)
    requires { Below (length marks.old) places.now count }
    ensures { marks.new ≡ marking marks.old (take count places.now) }
{
    for i in 0..count {
        let p = usize::from(places[i]);
        marks[p] = 1;
    }
}

// (order, owns and taken are passed one by one: the definitions take each, so a struct of them is no plainer in the clauses)
// ---- the steps, from plan[at] on; the place behind them is returned

// slot to is cleared, and given a check's places, without itself and without the marked ones
fn sum_check(plan: &mut [u32], at: usize, places: &[u16], to: usize, skip: &[u8]) -> usize
    requires room { Room plan.old at (sum_steps places.now to skip.now) }
    requires check { All (λ p. p < most_places) places.now }
    requires marks { most_places ≤ length skip.now }
    requires slot { to < 4096 }
    ensures { WroteSteps plan.old at (sum_steps places.now to skip.now) plan.new result }
{
    plan[at] = Step::Clear(to).pack();
    let mut k = at + 1;
    for p in places {
        let p = usize::from(*p);
        if p != to {
            if skip[p] != 1 {
                plan[k] = Step::Add(to, p).pack();
                k += 1;
            }
        }
    }
    k
}

// the same for check j
fn check_into(
    plan: &mut [u32],
    at: usize,
    located: &Located,
    j: usize,
    to: usize,
    skip: &[u8],
) -> usize
    requires room { Room plan.old at (check_steps located.now.table.words.now j to skip.now) }
    requires table { Readable located.now.table.words.now located.now.starts.now skip.now }
    requires check { j < number located.now.table.words.now }
    requires slot { to < 4096 }
    ensures { WroteSteps plan.old at
        (check_steps located.now.table.words.now j to skip.now)
        plan.new result }
{
    sum_check(plan, at, located.check(j), to, skip)
}

// the solved checks, the last taken first, without the marked places
pub fn solve_all(
    plan: &mut [u32],
    at: usize,
    located: &Located,
    order: &[u16],
    owns: &[u16],
    taken: usize,
    skip: &[u8],
) -> usize
    requires room { Room plan.old at (solve_steps located.now.table.words.now order.now owns.now taken skip.now) }
    requires table { Readable located.now.table.words.now located.now.starts.now skip.now }
    requires checks { Numbers located.now.table.words.now order.now taken }
    requires own { Below (places located.now.table.words.now) owns.now taken }
    ensures { WroteSteps plan.old at
        (solve_steps located.now.table.words.now order.now owns.now taken skip.now)
        plan.new result }
{
    let mut k = at;
    for i in (0..taken).rev() {
        k = check_into(
            plan,
            k,
            located,
            usize::from(order[i]),
            usize::from(owns[i]),
            skip,
        );
    }
    k
}

// the solved checks with all their places
pub fn solve_whole(
    plan: &mut [u32],
    at: usize,
    located: &Located,
    order: &[u16],
    owns: &[u16],
    taken: usize,
) -> usize
    requires room { Room plan.old at (whole_steps located.now.table.words.now order.now owns.now taken) }
    requires checks { Numbers located.now.table.words.now order.now taken }
    requires own { Below (places located.now.table.words.now) owns.now taken }
    ensures { WroteSteps plan.old at
        (whole_steps located.now.table.words.now order.now owns.now taken)
        plan.new result }
{
    let none = [0u8; MOST_PLACES];
    solve_all(plan, at, located, order, owns, taken, &none)
}

// the checks set aside, into the scratch slots, without the marked places
pub fn set_aside(
    plan: &mut [u32],
    at: usize,
    located: &Located,
    aside: &[u16],
    g: usize,
    skip: &[u8],
) -> usize
    requires room { Room plan.old at (aside_steps located.now.table.words.now aside.now g skip.now) }
    requires table { Readable located.now.table.words.now located.now.starts.now skip.now }
    requires checks { Numbers located.now.table.words.now aside.now g }
    requires few { g ≤ mask_width }
    ensures { WroteSteps plan.old at
        (aside_steps located.now.table.words.now aside.now g skip.now)
        plan.new result }
{
    let n = located.table.places;
    let mut k = at;
    for i in 0..g {
        k = check_into(plan, k, located, usize::from(aside[i]), n + i, skip);
    }
    k
}

// a fitted place is cleared, and given the scratch slots that its row of the inverse names
fn fit_place(plan: &mut [u32], at: usize, n: usize, g: usize, to: usize, row: u32) -> usize
    requires room { Room plan.old at (fit_steps n g to row) }
    requires places { n ≤ most_places }
    requires few { g ≤ mask_width }
    requires slot { to < 4096 }
    ensures { WroteSteps plan.old at (fit_steps n g to row) plan.new result }
{
    plan[at] = Step::Clear(to).pack();
    let mut k = at + 1;
    for i in 0..g {
        if (row >> i) & 1 == 1 {
            plan[k] = Step::Add(to, n + i).pack();
            k += 1;
        }
    }
    k
}

// the fitted places
pub fn fit_all(
    plan: &mut [u32],
    at: usize,
    n: usize,
    g: usize,
    fitted: &[u16],
    rows: &[u32],
) -> usize
    requires room { Room plan.old at (fitting_rows n g fitted.now rows.now 0 g) }
    requires places { n ≤ most_places }
    requires few { g ≤ mask_width }
    requires fitted { Below n fitted.now g }
    requires rows { g ≤ length rows.now }
    ensures { WroteSteps plan.old at
        (fitting_rows n g fitted.now rows.now 0 g)
        plan.new result }
{
    let mut k = at;
    for j in 0..g {
        k = fit_place(plan, k, n, g, usize::from(fitted[j]), rows[j]);
    }
    k
}
