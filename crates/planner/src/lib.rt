// The planner.
#![tactic(auto)]

ghost use Rattle.std.specs.Prelude.{◌≡◌, ◌≤◌, length};
ghost use Rattle.plan.specs.Layout.{least_plan};
ghost use Rattle.planning.specs.Planning.{work_words, planning_answer_of, planning_answer, planning_plan_after, planning_work_after};

use planning::Planned;
use refusals::Refusal;
use table::{Located, MOST_CHECKS, Table, WORK_WORDS};

// the least length of the plan's buffer
pub const LEAST_PLAN: usize = 15360;

// the plan of an accepted table, or refusal 6
fn plan_table(table: &Table, plan: &mut [u32], work: &mut [u64]) -> Result<Planned, Refusal>
    requires room { least_plan ≤ length plan.old }
    requires work { length work.old ≡ work_words }
    ensures answer { planning_answer_of result ≡ planning_answer table.now.words.now plan.old work.old }
    ensures plan { plan.new ≡ planning_plan_after table.now.words.now plan.old work.old }
    ensures work { work.new ≡ planning_work_after table.now.words.now plan.old work.old }
{
    let mut starts = [0u16; MOST_CHECKS];
    let mut order = [0u16; MOST_CHECKS];
    let mut owns = [0u16; MOST_CHECKS];
    let mut aside = [0u16; MOST_CHECKS];
    table::fill_starts(table, &mut starts);
    let located = Located {
        table: *table,
        starts: &starts,
    };
    let c = peel::choose_checks(&located, work, &mut order, &mut owns, &mut aside);
    if limits::MOST_ASIDE < c.aside {
        return Err(Refusal::Aside);
    }
    Ok(plan_out::write_out(&located, plan, &order, &owns, &aside, c))
}

// the plan of a table
pub fn plan(t: &[u16], plan: &mut [u32], work: &mut [u64]) -> Result<Planned, Refusal>
    ensures answer { planning_answer_of result ≡ planning_answer t.now plan.old work.old }
    ensures plan { plan.new ≡ planning_plan_after t.now plan.old work.old }
    ensures work { work.new ≡ planning_work_after t.now plan.old work.old }
{
    let table = Table::new(t)?;
    if plan.len() < LEAST_PLAN {
        return Err(Refusal::Buffer);
    }
    if work.len() != WORK_WORDS {
        return Err(Refusal::Buffer);
    }
    plan_table(&table, plan, work)
}
