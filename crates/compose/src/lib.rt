// The plan: from the checks chosen and the places fitted to its numbers.
#![tactic(auto)]

ghost use Rattle.std.specs.Prelude.{◌≡◌, ◌+◌, ◌≤◌, length};
ghost use Rattle.table.specs.Table.{most_places};
ghost use Rattle.plan.specs.Layout.{most_aside, most_steps, least_plan, info_numbers, step_numbers};
ghost use Rattle.rule.specs.PlanOf.{plan_of};
ghost use Rattle.lists.specs.Lists.{Wrote};
ghost use Rattle.emit.specs.Emit.{WroteSteps, Room, marked, Below};
ghost use Rattle.compose.specs.Compose.{gap_steps_in, plan_steps_in, clear_count, free_places, info_places, Phases, Composed};

use table::{Located, MOST_PLACES};

// (order, owns and taken are passed one by one: the definitions take each, so a struct of them is no plainer in the clauses)
// ---- the steps, from plan[at] on; the place behind them is returned

// the steps where checks were set aside
fn gap_steps(
    plan: &mut [u32],
    at: usize,
    located: &Located,
    order: &[u16],
    owns: &[u16],
    taken: usize,
    aside: &[u16],
    g: usize,
    fitted: &[u16],
    rows: &[u32],
) -> usize
    requires room { Room plan.old at (gap_steps_in located.now.table.words.now order.now owns.now taken aside.now g) }
    requires phases { Phases located.now.table.words.now located.now.starts.now order.now owns.now taken aside.now g fitted.now rows.now }
    ensures { WroteSteps plan.old at
        (gap_steps_in located.now.table.words.now order.now owns.now taken aside.now g)
        plan.new result }
{
    let mut skip = [0u8; MOST_PLACES];
    emit::mark(&mut skip, fitted, g);
    let a = emit::solve_all(plan, at, located, order, owns, taken, &skip);
    let b = emit::set_aside(plan, a, located, aside, g, &skip);
    let e = emit::fit_all(plan, b, located.table.places, g, fitted, rows);
    emit::solve_whole(plan, e, located, order, owns, taken)
}

// all steps
fn write_steps(
    plan: &mut [u32],
    at: usize,
    located: &Located,
    order: &[u16],
    owns: &[u16],
    taken: usize,
    aside: &[u16],
    g: usize,
    fitted: &[u16],
    rows: &[u32],
) -> usize
    requires room { Room plan.old at (plan_steps_in located.now.table.words.now order.now owns.now taken aside.now g) }
    requires phases { Phases located.now.table.words.now located.now.starts.now order.now owns.now taken aside.now g fitted.now rows.now }
    ensures { WroteSteps plan.old at
        (plan_steps_in located.now.table.words.now order.now owns.now taken aside.now g)
        plan.new result }
{
    if g == 0 {
        return emit::solve_whole(plan, at, located, order, owns, taken);
    }
    gap_steps(
        plan, at, located, order, owns, taken, aside, g, fitted, rows,
    )
}

// the count of steps, and the steps
fn step_section(
    plan: &mut [u32],
    at: usize,
    located: &Located,
    order: &[u16],
    owns: &[u16],
    taken: usize,
    aside: &[u16],
    g: usize,
    fitted: &[u16],
    rows: &[u32],
) -> usize
    requires room { Room plan.old (at + 1) (plan_steps_in located.now.table.words.now order.now owns.now taken aside.now g) }
    requires phases { Phases located.now.table.words.now located.now.starts.now order.now owns.now taken aside.now g fitted.now rows.now }
    requires few { length (plan_steps_in located.now.table.words.now order.now owns.now taken aside.now g) ≤ most_steps }
    ensures { Wrote plan.old at
        (step_numbers (plan_steps_in located.now.table.words.now order.now owns.now taken aside.now g))
        plan.new result }
{
    let e = write_steps(
        plan,
        at + 1,
        located,
        order,
        owns,
        taken,
        aside,
        g,
        fitted,
        rows,
    );
    plan[at] = (e - at - 1) as u32;
    e
}

// ---- the information places

// the places below n that are not marked, ascending
fn unmarked(plan: &mut [u32], at: usize, n: usize, used: &[u8]) -> usize
    requires room { at + length (free_places n (marked used.now)) ≤ length plan.old }
    requires marks { n ≤ length used.now }
    requires places { n ≤ most_places }
    ensures { Wrote plan.old at (free_places n (marked used.now)) plan.new result }
{
    let mut k = at;
    for p in 0..n {
        if used[p] != 1 {
            plan[k] = p as u32;
            k += 1;
        }
    }
    k
}

// the count of information places, and the places
fn info_section(
    plan: &mut [u32],
    at: usize,
    n: usize,
    owns: &[u16],
    taken: usize,
    fitted: &[u16],
    g: usize,
) -> usize
    requires room { at + 1 + length (info_places n owns.now taken fitted.now g) ≤ length plan.old }
    requires own { Below n owns.now taken }
    requires fitted { Below n fitted.now g }
    requires places { n ≤ most_places }
    ensures { Wrote plan.old at
        (info_numbers (info_places n owns.now taken fitted.now g))
        plan.new result }
{
    let mut used = [0u8; MOST_PLACES];
    emit::mark(&mut used, fitted, g);
    emit::mark(&mut used, owns, taken);
    let k = unmarked(plan, at + 1, n, &used);
    plan[at] = (k - at - 1) as u32;
    k
}

// ---- the plan

// how many of the steps are clear steps
fn clears(taken: usize, g: usize) -> usize
    requires taken { taken ≤ least_plan }
    requires few { g ≤ most_aside }
    ensures { result ≡ clear_count taken g }
{
    if g == 0 { taken } else { 2 * taken + 2 * g }
}

#[derive(Drop)]
pub struct Written {
    pub length: usize,
    pub additions: usize,
}

// the whole plan
pub fn write_plan(
    located: &Located,
    order: &[u16],
    owns: &[u16],
    taken: usize,
    aside: &[u16],
    g: usize,
    fitted: &[u16],
    rows: &[u32],
    kept: usize,
    plan: &mut [u32],
) -> Written
    requires phases { Phases located.now.table.words.now located.now.starts.now order.now owns.now taken aside.now g fitted.now rows.now }
    requires kept { kept ≡ (plan_of located.now.table.words.now).M }
    requires room { least_plan ≤ length plan.old }
    ensures { Composed located.now.table.words.now plan.old plan.new result.length result.additions }
{
    let n = located.table.places;
    plan::write_head(plan, n, g, kept);
    let k = info_section(plan, plan::INFO_COUNT_AT, n, owns, taken, fitted, g);
    let e = step_section(plan, k, located, order, owns, taken, aside, g, fitted, rows);
    Written {
        length: e,
        additions: e - k - 1 - clears(taken, g),
    }
}
