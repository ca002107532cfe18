// A plan looked over: its counts, its information places, its steps.
#![tactic(auto)]

ghost use Rattle.std.specs.Prelude.{◌≡◌, ◌+◌, ◌≤◌, [], length, IfOk};
ghost use Rattle.std.proofs.Math.Option.{some};
ghost use Rattle.lists.specs.Lists.{all_pass};
ghost use Rattle.plan.specs.Layout.{info_in, steps_at, well_formed, plan_refusal};
ghost use Rattle.plan.specs.LookOver.{Marks, Marking, is_marked, writable, good_step_by};
ghost use Rattle.plan.specs.Step.{unpack};
ghost use Rattle.refusals.specs.Refusals.{refusal_of};

use limits::MOST_SLOTS;
use plan::{Plan, Step, gap, info, places, steps};
use refusals::Refusal;

// Marks the information places, a byte a slot; false where one is not below n or does not ascend.
fn mark_places(w: &[u32], n: usize, marks: &mut [u8]) -> bool
    requires places { steps_at w.now ≤ length w.now }
    requires room { n ≤ length marks.old }
    requires unmarked { Marks [] marks.old }
    ensures { Marking n (info_in w.now) result marks.new }
{
    let mut low = 0;
    for p in info(w) {
        let p = *p as usize;
        if p < low || n <= p {
            return false;
        }
        marks[p] = 1;
        low = p + 1;
    }
    true
}

// a slot below k without a mark
fn may_write(k: usize, marks: &[u8], to: usize) -> bool
    requires { k ≤ length marks.now }
    ensures { result ≡ writable k (is_marked marks.now) to }
{
    to < k && marks[to] != 1
}

// a slot outside, a slot added into itself, an information place written: none of them
fn good_step(k: usize, marks: &[u8], x: Step) -> bool
    requires { k ≤ length marks.now }
    ensures { result ≡ good_step_by k (is_marked marks.now) (some x) }
{
    match x {
        Step::Clear(to) => may_write(k, marks, to),
        Step::Add(to, from) => from < k && to != from && may_write(k, marks, to),
    }
}

// the same of a plan number, and that it is a step
fn good_number(k: usize, marks: &[u8], word: u32) -> bool
    requires { k ≤ length marks.now }
    ensures { result ≡ good_step_by k (is_marked marks.now) (unpack word) }
{
    match Step::unpack(word) {
        Some(x) => good_step(k, marks, x),
        None => false,
    }
}

// all numbers
fn good_steps(k: usize, marks: &[u8], words: &[u32]) -> bool
    requires { k ≤ length marks.now }
    ensures { result ≡ all_pass (λ x. good_step_by k (is_marked marks.now) (unpack x)) words.now }
{
    for word in words {
        if !good_number(k, marks, *word) {
            return false;
        }
    }
    true
}

// the counts, the information places and the steps
fn well_formed(words: &[u32]) -> bool
    ensures { result ≡ well_formed words.now }
{
    if limits::bad_counts(words) {
        return false;
    }
    let n = places(words);
    let mut marks = [0u8; MOST_SLOTS];
    mark_places(words, n, &mut marks) && good_steps(n + gap(words), &marks, steps(words))
}

// The plan of some numbers, unless it is not well-formed.
pub fn look_over(words: &[u32]) -> Result<Plan, Refusal>
    ensures refusal { refusal_of result ≡ plan_refusal words.now }
    ensures words { IfOk result (λ p. p.words ≡ words.entry) }
{
    if !well_formed(words) {
        return Err(Refusal::Plan);
    }
    Ok(Plan { words })
}
