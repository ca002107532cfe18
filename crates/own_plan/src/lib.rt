// The planner's own plan, for the programs.
#![tactic(auto)]

ghost use Rattle.std.specs.Prelude.{◌≡◌};
ghost use Rattle.planning.specs.Planning.{planning_answer_of, planning_answer, planning_plan_after};
ghost use Rattle.own_plan.specs.Own.{lent_work};

use planning::Planned;
use refusals::Refusal;

// Plans a table: the planner's call with work of its own.
pub fn plan_of(table: &[u16], plan: &mut [u32]) -> Result<Planned, Refusal>
    ensures answer { planning_answer_of result ≡ planning_answer table.now plan.old lent_work }
    ensures plan { plan.new ≡ planning_plan_after table.now plan.old lent_work }
{
    let mut work = [0u64; table::WORK_WORDS];
    planner::plan(table, plan, &mut work)
}
