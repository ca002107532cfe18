// The information packets copied to their places, each written once; and the clearing before it.
#![tactic(auto)]

ghost use Rattle.std.specs.Prelude.{◌≡◌, ◌*◌, ◌<◌, ◌≤◌, length, take};
ghost use Rattle.plan.specs.Layout.{plan_places, info_count, step_count, steps_of};
ghost use Rattle.start.specs.Kept.{OthersKept};
ghost use Rattle.start.specs.Start.{Lent, with_information, Together, PreparedFor};

use plan::Plan;

// ---- copying

// Past the information places from the k-th on that follow each other.
fn together(info: &[u32], k: usize) -> usize
    requires { k < length info.now }
    ensures { Together info.now k (length info.now) result }
{
    let place = info[k] as usize;
    for r in k + 1..info.len() {
        if info[r] as usize != place + (r - k) {
            return r;
        }
    }
    info.len()
}

// The k-th information packet is copied to the k-th information place: run by run.
fn copy_information(plan: &Plan, s: usize, information: &[u8], block: &mut [u8])
    requires information { length information.now ≡ info_count plan.now.words.now * s }
    requires block { length block.old ≡ plan_places plan.now.words.now * s }
    ensures copied { block.new ≡ with_information plan.now.words.now s information.now block.old }
    ensures others { OthersKept plan.now.words.now s block.old block.new }
{
    let info = plan.info();
    let mut k = 0;
    // run by run: each turn says where the next begins
    while k < info.len() {
        let r = together(info, k);
        packets::copy(block, info[k] as usize * s, information, k * s, (r - k) * s);
        k = r;
    }
}

// ---- both

// Block and scratch before the first of so many steps.
pub fn prepare(
    plan: &Plan,
    s: usize,
    steps: usize,
    information: &[u8],
    block: &mut [u8],
    scratch: &mut [u8],
)
    requires lent { Lent plan.now.words.now s (length block.old) (length scratch.old) }
    requires steps { steps ≤ step_count plan.now.words.now }
    requires information { length information.now ≡ info_count plan.now.words.now * s }
    ensures { PreparedFor plan.now.words.now s (take steps (steps_of plan.now.words.now)) information.now
        block.new scratch.new }
{
    start::clear_others(plan, s, steps, block, scratch);
    copy_information(plan, s, information, block);
}
