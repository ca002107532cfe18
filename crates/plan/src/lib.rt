// A step of a plan, and the plan's layout.
#![tactic(auto)]

ghost use Rattle.std.specs.Prelude.{◌≡◌, ◌+◌, ◌*◌, ◌<◌, ◌≤◌, length, get_or};
ghost use Rattle.lists.specs.Lists.{written};
ghost use Rattle.plan.specs.Head.{HeadFits};
ghost use Rattle.plan.specs.Layout.{least_numbers, plan_head, plan_places, plan_gap, plan_kept};
ghost use Rattle.plan.specs.Layout.{info_at, info_count, info_in, step_count, steps_at, steps_in};
ghost use Rattle.plan.specs.Step.{SlotsBelow, pack, unpack, decoded_of};

mod formed;

pub use formed::Plan;

// clears a slot, or adds one slot into another: Add(to, from)
#[derive(Clone, Copy, Debug, PartialEq, Eq)]
pub enum Step {
    Clear(usize),
    Add(usize, usize),
}

impl Step {
    // the kind number of add; that of clear is 0
    pub const ADD: u32 = 1;

    // the factor of the kind
    pub const KIND: u32 = 16777216;

    // the factor of the slot that is written
    pub const SLOT: u32 = 4096;

    // the plan number of a step
    pub fn pack(self) -> u32
        requires { SlotsBelow 4096 self }
        ensures { result ≡ pack self }
    {
        match self {
            Step::Clear(to) => (to as u32) * Step::SLOT,
            Step::Add(to, from) => Step::ADD * Step::KIND
                + (to as u32) * Step::SLOT
                + (from as u32),
        }
    }

    // the step of a plan number, if it is one
    pub fn unpack(word: u32) -> Option<Step>
        ensures { result ≡ decoded_of (unpack word) }
    {
        let kind = word / Step::KIND;
        let to = (word / Step::SLOT % Step::SLOT) as usize;
        let from = (word % Step::SLOT) as usize;
        if kind == Step::ADD {
            return Some(Step::Add(to, from));
        }
        if kind == 0 && from == 0 {
            return Some(Step::Clear(to));
        }
        None
    }
}

// ---- the layout
// the first number: how many follow it in the first section
pub const HEAD_COUNT: usize = 3;

// where the count of information places stands
pub const INFO_COUNT_AT: usize = HEAD_COUNT + 1;

// where the information places start
const INFO_AT: usize = INFO_COUNT_AT + 1;

// the numbers of a plan of no information places and no steps
pub const LEAST_NUMBERS: usize = INFO_AT + 1;

// ---- writing
// the first section: n, g and M behind their count
pub fn write_head(w: &mut [u32], n: usize, g: usize, m: usize)
    requires { HeadFits w.old n g m }
    ensures { w.new ≡ written w.old 0 (plan_head n g m) }
{
    w[0] = HEAD_COUNT as u32;
    w[1] = n as u32;
    w[2] = g as u32;
    w[3] = m as u32;
}

// ---- a plan's counts
pub fn places(w: &[u32]) -> usize
    requires { least_numbers ≤ length w.now }
    ensures { result ≡ plan_places w.now }
{
    w[1] as usize
}

pub fn gap(w: &[u32]) -> usize
    requires { least_numbers ≤ length w.now }
    ensures { result ≡ plan_gap w.now }
{
    w[2] as usize
}

pub fn kept(w: &[u32]) -> usize
    requires { least_numbers ≤ length w.now }
    ensures { result ≡ plan_kept w.now }
{
    w[3] as usize
}

pub fn info_count(w: &[u32]) -> usize
    requires { least_numbers ≤ length w.now }
    ensures { result ≡ info_count w.now }
{
    w[INFO_COUNT_AT] as usize
}

pub fn step_count(w: &[u32]) -> usize
    requires { info_at + info_count w.now < length w.now }
    ensures { result ≡ step_count w.now }
{
    w[INFO_AT + info_count(w)] as usize
}

// where the steps start
pub fn steps_at(w: &[u32]) -> usize
    requires { least_numbers ≤ length w.now }
    ensures { result ≡ steps_at w.now }
{
    LEAST_NUMBERS + info_count(w)
}

// the information places
pub fn info(w: &[u32]) -> &[u32]
    requires { steps_at w.now ≤ length w.now }
    ensures { result.now ≡ info_in w.now }
{
    let end = INFO_AT + info_count(w);
    &w[INFO_AT..end]
}

// the steps' numbers
pub fn steps(w: &[u32]) -> &[u32]
    requires { steps_at w.now ≤ length w.now }
    ensures { result.now ≡ steps_in w.now }
{
    let at = steps_at(w);
    &w[at..]
}

// the k-th information place
pub fn info_place(w: &[u32], k: usize) -> usize
    requires number { k < info_count w.now }
    requires places { info_at + info_count w.now ≤ length w.now }
    ensures { result ≡ get_or (info_in w.now) k 0 }
{
    w[INFO_AT + k] as usize
}
