// The uplink's library for C: the planner and the encoder.
#![tactic(auto)]

ghost use Rattle.std.specs.Prelude.{◌≡◌};
ghost use Rattle.encoder.specs.Encoding.{encode_answer, encode_block_after, encode_scratch_after};
ghost use Rattle.planning.specs.Planning.{planning_answer, planning_plan_after, planning_work_after};
ghost use Rattle.uplink.specs.Answers.{encoded, planned};

// Refusals and kinds are numbers here, and answers plain structs: that is the C interface.

// What the encoder answers: the refusal, 0 for none, and the additions.
#[repr(C)]
#[derive(Drop)]
pub struct Encoding {
    pub refusal: u32,
    pub additions: u32,
}

#[unsafe(no_mangle)]
pub extern "C" fn bs_encode(
    plan: &[u32],
    size: usize,
    information: &[u8],
    block: &mut [u8],
    scratch: &mut [u8],
    limit: usize,
) -> Encoding
    ensures answer { encoded result ≡ encode_answer plan.now size information.now block.old scratch.old limit }
    ensures block { block.new ≡ encode_block_after plan.now size information.now block.old scratch.old limit }
    ensures scratch { scratch.new ≡ encode_scratch_after plan.now size information.now block.old scratch.old limit }
{
    match encoder::encode(plan, size, information, block, scratch, limit) {
        Ok(additions) => Encoding {
            refusal: 0,
            additions,
        },
        Err(r) => Encoding {
            refusal: r.number(),
            additions: 0,
        },
    }
}

// What the planner answers: the refusal, 0 for none, the plan's length, M, W, g and the number of add steps.
#[repr(C)]
#[derive(Drop)]
pub struct Planning {
    pub refusal: u32,
    pub length: u32,
    pub kept: u32,
    pub ones: u32,
    pub gap: u32,
    pub additions: u32,
}

#[unsafe(no_mangle)]
pub extern "C" fn bs_plan(table: &[u16], plan: &mut [u32], work: &mut [u64]) -> Planning
    ensures answer { planned result ≡ planning_answer table.now plan.old work.old }
    ensures plan { plan.new ≡ planning_plan_after table.now plan.old work.old }
    ensures work { work.new ≡ planning_work_after table.now plan.old work.old }
{
    match planner::plan(table, plan, work) {
        Ok(p) => Planning {
            refusal: 0,
            length: p.length,
            kept: p.kept,
            ones: p.ones,
            gap: p.gap,
            additions: p.additions,
        },
        Err(r) => Planning {
            refusal: r.number(),
            length: 0,
            kept: 0,
            ones: 0,
            gap: 0,
            additions: 0,
        },
    }
}
