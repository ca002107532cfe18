// The steps of a plan carried out, as far as the limit.
#![tactic(auto)]

ghost use Rattle.std.specs.Prelude.{◌≡◌, ◌≤◌, length};
ghost use Rattle.plan.specs.Layout.{step_count};
ghost use Rattle.start.specs.Start.{Lent};
ghost use Rattle.running.specs.Running.{Ran};

use plan::Plan;

// The most add steps that are taken in one run.
const LONGEST_RUN: usize = 64;

// The plan's first steps, run by run: a clear is taken with the add steps into the same slot after
// it. The number of add steps among them.
pub fn run(plan: &Plan, s: usize, steps: usize, block: &mut [u8], scratch: &mut [u8]) -> u32
    requires lent { Lent plan.now.words.now s (length block.old) (length scratch.old) }
    requires steps { steps ≤ step_count plan.now.words.now }
    ensures { Ran plan.now.words.now s steps result block.old scratch.old block.new scratch.new }
{
    let n = plan.places();
    let at = plan.steps_at();
    let mut sources = [0u16; LONGEST_RUN];
    let mut additions = 0;
    let mut i = 0;
    // run by run: each turn says where the next begins
    while i < steps {
        let x = slots::decode(plan.words[at + i]);
        let to = slots::target(x);
        let fresh = slots::is_clear(x);
        let first = i + usize::from(fresh);
        let count = runs::add_run(
            plan.words,
            at + first,
            at + steps.min(first + LONGEST_RUN),
            to,
            fresh,
            &mut sources,
            n,
            s,
            block,
            scratch,
        );
        additions += count as u32;
        i = first + count;
    }
    additions
}
