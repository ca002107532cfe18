// The text that program planlist prints, written at the start of a buffer; its length.
#![tactic(auto)]

ghost use Rattle.std.specs.Prelude.{◌≡◌, ◌++◌, ◌≤◌, length, drop};
ghost use Rattle.io.specs.Counts.{IsPrefixLen};
ghost use Rattle.text.specs.Lines.{Appended};
ghost use Rattle.plan_text.specs.PlanText.{most_text};
ghost use Rattle.listing.specs.Listing.{table_text, listing};

use plan::Plan;

// room for every text
pub const MOST_TEXT: usize = 192000;

// of a table
fn list_table(out: &mut [u8], table: &[u16]) -> usize
    requires { most_text ≤ length out.old }
    ensures { Appended out.old 0 (table_text table.now) out.new result }
{
    let mut plan = [0u32; planner::LEAST_PLAN];
    let planned = match own_plan::plan_of(table, &mut plan) {
        Ok(planned) => planned,
        Err(refusal) => return plan_text::put_refused(out, 0, refusal.number()),
    };
    let plan = Plan {
        words: &plan[..planned.length as usize],
    };
    let s = usize::from(table[2]);
    plan_text::put_plan(out, &plan, s, planned.ones, planned.additions)
}

// of a table's file
pub fn list(file: &[u8], out: &mut [u8]) -> usize
    requires { most_text ≤ length out.old }
    ensures text { out.new ≡ listing file.now ++ drop result out.old }
    ensures length { result ≡ length (listing file.now) }
    ensures within { IsPrefixLen result out.new }
{
    let mut words = [0u16; table_file::MOST_WORDS];
    let Some(n) = table_file::words_in(file, &mut words) else {
        return plan_text::put_refused(out, 0, 3);
    };
    list_table(out, &words[..n])
}
