// The text of a plan, line by line.
#![tactic(auto)]

ghost use Rattle.std.specs.Prelude.{◌≡◌, ◌++◌, map, ◌+◌, ◌≤◌, length};
ghost use Rattle.plan.specs.declared.Step.TheVariants.{Add};
ghost use Rattle.plan.specs.Step.{add_steps, unpack, unpack_all};
ghost use Rattle.plan.specs.Layout.{steps_of};
ghost use Rattle.numerals.specs.Numerals.{decimal};
ghost use Rattle.text.specs.Lines.{Appended, bytes, words_after_blanks};
ghost use Rattle.plan_text.specs.PlanText.{heading, info_line, step_line, step_lines, number_text, refused_line, plan_text_of};

use plan::{Plan, Step};

// ---- lines, each written from at on; where it ends

// a word and a number, and the line's end
fn put_line(out: &mut [u8], at: usize, word: &[u8], x: u64) -> usize
    requires { at + length (word.now ++ decimal x ++ bytes "\n") ≤ length out.old }
    ensures { Appended out.old at (word.now ++ decimal x ++ bytes "\n") out.new result }
{
    let at = text::put_count(out, at, word, x);
    text::put(out, at, b"\n")
}

// the first line
fn put_heading(
    out: &mut [u8],
    at: usize,
    n: usize,
    s: usize,
    kept: usize,
    ones: u32,
    gap: usize,
) -> usize
    requires { at + length (heading n s kept ones gap) ≤ length out.old }
    ensures { Appended out.old at (heading n s kept ones gap) out.new result }
{
    let at = text::put_count(out, at, b"places ", n as u64);
    let at = text::put_count(out, at, b" size ", s as u64);
    let at = text::put_count(out, at, b" kept ", kept as u64);
    let at = text::put_count(out, at, b" ones ", ones as u64);
    put_line(out, at, b" gap ", gap as u64)
}

// the information places, each after a blank, and the line's end
fn put_places(out: &mut [u8], at: usize, places: &[u32]) -> usize
    requires { at + length (words_after_blanks (map decimal places.now)) ≤ length out.old }
    ensures { Appended out.old at (words_after_blanks (map decimal places.now)) out.new result }
{
    let mut end = at;
    for place in places {
        end = text::put_count(out, end, b" ", *place as u64);
    }
    text::put(out, end, b"\n")
}

// the second line
fn put_info(out: &mut [u8], at: usize, places: &[u32]) -> usize
    requires { at + length (info_line places.now) ≤ length out.old }
    ensures { Appended out.old at (info_line places.now) out.new result }
{
    let at = text::put(out, at, b"info");
    put_places(out, at, places)
}

// the line of a step that adds
fn put_add(out: &mut [u8], at: usize, to: usize, from: usize) -> usize
    requires { at + length (step_line (Add to from)) ≤ length out.old }
    ensures { Appended out.old at (step_line (Add to from)) out.new result }
{
    let at = text::put_count(out, at, b"add ", from as u64);
    put_line(out, at, b" ", to as u64)
}

// the line of a step
fn put_step(out: &mut [u8], at: usize, x: Step) -> usize
    requires { at + length (step_line x) ≤ length out.old }
    ensures { Appended out.old at (step_line x) out.new result }
{
    match x {
        Step::Clear(to) => put_line(out, at, b"clear ", to as u64),
        Step::Add(to, from) => put_add(out, at, to, from),
    }
}

// the line of a plan number; a number that is no step has none
fn put_number(out: &mut [u8], at: usize, word: u32) -> usize
    requires { at + length (number_text (unpack word)) ≤ length out.old }
    ensures { Appended out.old at (number_text (unpack word)) out.new result }
{
    match Step::unpack(word) {
        Some(x) => put_step(out, at, x),
        None => at,
    }
}

// the lines of the steps
fn put_steps(out: &mut [u8], at: usize, numbers: &[u32]) -> usize
    requires { at + length (step_lines (unpack_all numbers.now)) ≤ length out.old }
    ensures { Appended out.old at (step_lines (unpack_all numbers.now)) out.new result }
{
    let mut end = at;
    for number in numbers {
        end = put_number(out, end, *number);
    }
    end
}

// "refused" and the number
// A number and no Refusal: the 3 of a table's file comes before there is a table to look over.
pub fn put_refused(out: &mut [u8], at: usize, number: u32) -> usize
    requires { at + length (refused_line number) ≤ length out.old }
    ensures { Appended out.old at (refused_line number) out.new result }
{
    put_line(out, at, b"refused ", number as u64)
}

// ---- the whole text of a plan, with the table's size and ones and the number of the plan's add steps
pub fn put_plan(out: &mut [u8], plan: &Plan, s: usize, ones: u32, additions: u32) -> usize
    requires additions_value { additions ≡ add_steps (steps_of plan.now.words.now) }
    requires ones_in_bounds { length (plan_text_of plan.now.words.now s ones) ≤ length out.old }
    ensures { Appended out.old 0 (plan_text_of plan.now.words.now s ones) out.new result }
{
    let at = put_heading(out, 0, plan.places(), s, plan.kept(), ones, plan.gap());
    let at = put_info(out, at, plan.info());
    let at = put_steps(out, at, plan.steps());
    put_line(out, at, b"adds ", additions as u64)
}
