// The plan of the checks chosen, written.
#![tactic(auto)]

ghost use Rattle.std.specs.Prelude.{◌≡◌, ◌≤◌, length};
ghost use Rattle.peel.specs.Choice.{ChoiceOf};
ghost use Rattle.plan.specs.Layout.{most_aside, least_plan};
ghost use Rattle.rule.specs.PlanOf.{with_numbers};
ghost use Rattle.planning.specs.Planning.{planning_answer_of, planning_answer_at};

use peel::Choice;
use planning::Planned;
use table::Located;

// the bits of a row of the inverse
const MASK_WIDTH: usize = 32;

// steps 4 to 6: the plan of the checks chosen
pub fn write_out(
    located: &Located,
    plan: &mut [u32],
    order: &[u16],
    owns: &[u16],
    aside: &[u16],
    c: Choice,
) -> Planned
    requires choice { ChoiceOf located.now.table.words.now order.now owns.now aside.now c.kept c.ones c.taken c.aside }
    requires few { c.aside ≤ most_aside }
    requires room { least_plan ≤ length plan.old }
    ensures answer { planning_answer_of (Ok result) ≡ planning_answer_at 0 located.now.table.words.now }
    ensures plan { plan.new ≡ with_numbers located.now.table.words.now plan.old }
{
    let g = c.aside;
    let mut fitted = [0u16; MASK_WIDTH];
    let mut rows = [0u32; MASK_WIDTH];
    columns::fit_places(
        located,
        order,
        owns,
        c.taken,
        aside,
        g,
        &mut fitted,
        &mut rows,
    );
    let w = compose::write_plan(
        located, order, owns, c.taken, aside, g, &fitted, &rows, c.kept, plan,
    );
    Planned {
        length: w.length as u32,
        kept: c.kept as u32,
        ones: c.ones as u32,
        gap: g as u32,
        additions: w.additions as u32,
    }
}
