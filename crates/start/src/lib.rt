// What stands in the slots before the first step, and the clearing: every slot but the information places becomes zero, but for
// some that the first step on them clears.
#![tactic(auto)]

ghost use Rattle.std.specs.Prelude.{◌≡◌, List, [], ◌∷◌, ◌+◌, ◌*◌, ◌≤◌, length, take};
ghost use Rattle.plan.specs.declared.Step.{Step as StepValue};
ghost use Rattle.plan.specs.Layout.{plan_places, info_count, slots, step_count, steps_of};
ghost use Rattle.plan.specs.Step.{SlotsBelow};
ghost use Rattle.start.specs.Kept.{InformationKept};
ghost use Rattle.start.specs.Start.{Lent, Marked, MarkedOnly, Alike, GapCleared, GapsCleared, ClearedFor};

use limits::MOST_SLOTS;
use plan::{Plan, Step};

// ---- marks: slots that need no clearing

// Marks, a byte a slot, of those that the steps clear first: for one step more in front of them.
fn mark_step(x: Step, marks: &mut [u8])
    requires { SlotsBelow (length marks.old) x }
    ensures { (xs : List StepValue) → Marked xs marks.old → Marked (x ∷ xs) marks.new }
{
    match x {
        Step::Clear(to) => {
            marks[to] = 1;
        }
        Step::Add(to, from) => {
            marks[to] = 0;
            marks[from] = 0;
        }
    }
}

// For the plan's first steps, from the last of them to the first.
fn mark_cleared(plan: &Plan, steps: usize, marks: &mut [u8])
    requires steps { steps ≤ step_count plan.now.words.now }
    requires room { slots plan.now.words.now ≤ length marks.old }
    requires none { Marked [] marks.old }
    ensures { Marked (take steps (steps_of plan.now.words.now)) marks.new }
{
    let at = plan.steps_at();
    for i in (0..steps).rev() {
        mark_step(slots::decode(plan.words[at + i]), marks);
    }
}

// From so many bytes a packet on it takes longer to clear slots than to look for those that need no clearing.
const LONG: usize = 512;

// Marks for the clearing of slots of s bytes.
fn mark_slots(plan: &Plan, s: usize, steps: usize, marks: &mut [u8])
    requires steps { steps ≤ step_count plan.now.words.now }
    requires room { slots plan.now.words.now ≤ length marks.old }
    requires none { Marked [] marks.old }
    ensures { MarkedOnly (take steps (steps_of plan.now.words.now)) marks.new }
{
    if LONG <= s {
        mark_cleared(plan, steps, marks);
    }
}

// Past the packets from i to high - 1 that have a mark, or that have none; packet p has mark first + p.
fn past(marks: &[u8], marked: bool, first: usize, i: usize, high: usize) -> usize
    requires { (i ≤ high)
        × (first + high ≤ length marks.now) }
    ensures { Alike marks.now marked first i high result }
{
    for r in i..high {
        if (marks[first + r] == 1) != marked {
            return r;
        }
    }
    high
}

// ---- clearing

// The packets from low to high - 1 that have no mark become zero, run by run.
fn clear_unmarked(b: &mut [u8], marks: &[u8], first: usize, low: usize, high: usize, s: usize)
    requires bytes { high * s ≤ length b.old }
    requires marks { first + high ≤ length marks.now }
    requires order { low ≤ high }
    ensures { GapCleared marks.now s first low high b.old b.new }
{
    let mut i = low;
    // run by run: each turn says where the next begins
    while i < high {
        let from = past(marks, true, first, i, high);
        let to = past(marks, false, first, from, high);
        packets::clear(b, from * s, (to - from) * s);
        i = to;
    }
}

// The same; where packets are too short to look for marks all of them become zero, in one run.
fn clear_gap(b: &mut [u8], marks: &[u8], first: usize, low: usize, high: usize, s: usize)
    requires bytes { high * s ≤ length b.old }
    requires marks { first + high ≤ length marks.now }
    requires order { low ≤ high }
    ensures { GapCleared marks.now s first low high b.old b.new }
{
    if LONG <= s {
        clear_unmarked(b, marks, first, low, high, s);
    } else if low < high {
        packets::clear(b, low * s, (high - low) * s);
    }
}

// The gaps before and between the information places become zero, but for packets that have a mark. The place behind the last
// of them, 0 if there is none.
fn clear_gaps(plan: &Plan, s: usize, marks: &[u8], block: &mut [u8]) -> usize
    requires marks { slots plan.now.words.now ≤ length marks.now }
    requires block { length block.old ≡ plan_places plan.now.words.now * s }
    ensures { GapsCleared plan.now.words.now marks.now s (info_count plan.now.words.now) result block.old block.new }
{
    let mut low = 0;
    for place in plan.info() {
        let place = *place as usize;
        clear_gap(block, marks, 0, low, place, s);
        low = place + 1;
    }
    low
}

// Every slot becomes zero, but the information places, which stay, and some that the plan's first steps clear first.
pub fn clear_others(plan: &Plan, s: usize, steps: usize, block: &mut [u8], scratch: &mut [u8])
    requires lent { Lent plan.now.words.now s (length block.old) (length scratch.old) }
    requires steps { steps ≤ step_count plan.now.words.now }
    ensures cleared { ClearedFor plan.now.words.now s (take steps (steps_of plan.now.words.now)) block.new scratch.new }
    ensures keeps { InformationKept plan.now.words.now s block.old block.new }
{
    let n = plan.places();
    let g = plan.gap();
    let mut marks = [0u8; MOST_SLOTS];
    mark_slots(plan, s, steps, &mut marks);
    let low = clear_gaps(plan, s, &marks, block);
    clear_gap(block, &marks, 0, low, n, s);
    clear_gap(scratch, &marks, n, 0, g, s);
}
