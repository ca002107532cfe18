// The encoder.
#![tactic(auto)]

ghost use Rattle.std.specs.Prelude.{◌≡◌, ◌≤◌};
ghost use Rattle.table.specs.Table.{most_bytes};
ghost use Rattle.encoder.specs.Answers.{encode_answer_of};
ghost use Rattle.encoder.specs.Encoding.{wrong_lengths, encode_answer, encode_block_after, encode_scratch_after};

use plan::Plan;
use refusals::Refusal;
use table::MOST_BYTES;

// A lent buffer of wrong length.
fn wrong_lengths(plan: &Plan, s: usize, information: usize, block: usize, scratch: usize) -> bool
    requires { s ≤ most_bytes }
    ensures { result ≡ wrong_lengths plan.now.words.now s information block scratch }
{
    information != plan.info_count() * s || block != plan.places() * s || scratch != plan.gap() * s
}

// Encodes with packets of s bytes: block and scratch are cleared, the information packets go to their places, and the first
// `limit` steps are carried out; a limit at or above the plan's count means all. The number of add steps that were carried out.
pub fn encode(
    plan: &[u32],
    s: usize,
    information: &[u8],
    block: &mut [u8],
    scratch: &mut [u8],
    limit: usize,
) -> Result<u32, Refusal>
    ensures answer { encode_answer_of result
        ≡ encode_answer plan.now s information.now block.old scratch.old limit }
    ensures block { block.new
        ≡ encode_block_after plan.now s information.now block.old scratch.old limit }
    ensures scratch { scratch.new
        ≡ encode_scratch_after plan.now s information.now block.old scratch.old limit }
{
    if table::outside(MOST_BYTES, s) {
        return Err(Refusal::Limits);
    }
    let plan = formed::look_over(plan)?;
    if wrong_lengths(&plan, s, information.len(), block.len(), scratch.len()) {
        return Err(Refusal::Buffer);
    }
    let steps = limit.min(plan.step_count());
    copying::prepare(&plan, s, steps, information, block, scratch);
    Ok(running::run(&plan, s, steps, block, scratch))
}
