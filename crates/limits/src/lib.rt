// The limits of a plan, and its counts and length looked at.
#![tactic(auto)]

ghost use Rattle.std.specs.Prelude.{◌≡◌, ◌≤◌, length};
ghost use Rattle.plan.specs.Layout.{least_numbers, plan_places, plan_kept, bad_lengths, bad_limits, bad_counts};

use plan::{HEAD_COUNT, LEAST_NUMBERS, gap, info_count, kept, places, step_count, steps_at};
use table::{MOST_CHECKS, MOST_PLACES};

// ---- the limits of a plan
// checks set aside
pub const MOST_ASIDE: usize = 20;

// steps, clear and add
pub const MOST_STEPS: usize = 12708;

// places and scratch slots
pub const MOST_SLOTS: usize = MOST_PLACES + MOST_ASIDE;

// ---- cause 9
// wrong counts or length, too many steps
fn bad_lengths(w: &[u32]) -> bool
    requires counts { least_numbers ≤ length w.now }
    requires kept { plan_kept w.now ≤ plan_places w.now }
    ensures { result ≡ bad_lengths w.now }
{
    if info_count(w) != places(w) - kept(w) {
        return true;
    }
    let at = steps_at(w);
    if w.len() < at {
        return true;
    }
    let steps = step_count(w);
    MOST_STEPS < steps || w.len() != at + steps
}

// n or g beyond limits, g over M, M over n or 512
fn bad_limits(w: &[u32]) -> bool
    requires { least_numbers ≤ length w.now }
    ensures { result ≡ bad_limits w.now }
{
    let n = places(w);
    let g = gap(w);
    let m = kept(w);
    table::outside(MOST_PLACES, n) || MOST_ASIDE < g || m < g || n < m || MOST_CHECKS < m
}

pub fn bad_counts(w: &[u32]) -> bool
    ensures { result ≡ bad_counts w.now }
{
    w.len() < LEAST_NUMBERS || w[0] as usize != HEAD_COUNT || bad_limits(w) || bad_lengths(w)
}
