// Steps 2 and 3: own places, and checks set aside.
#![tactic(auto)]

ghost use Rattle.std.specs.Prelude.{◌≡◌, map, ℕ, ◌+◌, ◌≤◌, ◌<◌, length, get_or, replicate};
ghost use Rattle.table.specs.Checks.{check};
ghost use Rattle.table.specs.Table.{total};
ghost use Rattle.keep.specs.Kept.{kept_of};
ghost use Rattle.live.specs.Live.{Calm};
ghost use Rattle.freed.specs.Most.{lives};
ghost use Rattle.peel.specs.Choice.{ChoiceOf, weight};
ghost use Rattle.peel.specs.Turn.{In, Ready, Picked, Removed, Room, Peeled};
ghost use Rattle.peel.specs.Turn.{Numbers, Fresh, Entered, First};

use table::{Located, MOST_CHECKS, MOST_PLACES, Table};

#[derive(Drop)]
pub enum Event {
    Took(usize, usize),
    Aside(usize),
}

// the next event; the scan starts from top
fn pick(located: &Located, live: &[u8], count: &[u16], names: &[u16], top: usize) -> Event
    requires ready { Ready located.now.table.words.now located.now.table.checks located.now.table.places live.now count.now names.now }
    requires live { 0 < length (lives live.now 0 located.now.table.checks) }
    requires calm { Calm count.now top }
    ensures { Picked (check located.now.table.words.now located.now.table.checks) (lives live.now 0 located.now.table.checks) located.now.table.places result }
{
    match live::single(count, top) {
        Some(p) => Event::Took(p, usize::from(names[p])),
        None => Event::Aside(freed::most_freed_of(located, live, count)),
    }
}

// check j is no longer live; where the next scan starts
fn remove(
    live: &mut [u8],
    count: &mut [u16],
    names: &mut [u16],
    located: &Located,
    j: usize,
    top: usize,
) -> usize
    requires counts { length count.old ≡ located.now.table.places }
    requires ready { Ready located.now.table.words.now located.now.table.checks (length count.old) live.old count.old names.old }
    requires live { In j (lives live.old 0 located.now.table.checks) }
    requires calm { Calm count.old top }
    ensures removed { Removed located.now.table.words.now located.now.table.checks (length count.old) j live.old
        live.new count.new names.new }
    ensures calm { Calm count.new result }
{
    let places = located.check(j);
    live[j] = 0;
    live::forget(count, names, places, j as u16);
    live::raise(count, places, top)
}

#[derive(Drop)]
pub struct Counts {
    pub taken: usize,
    pub aside: usize,
}

// all events
// (order, owns and their count are passed one by one: the definitions take each, so a struct is no plainer in the clauses)
pub fn peel_checks(
    located: &Located,
    live: &mut [u8],
    count: &mut [u16],
    names: &mut [u16],
    order: &mut [u16],
    owns: &mut [u16],
    aside: &mut [u16],
    total: usize,
) -> Counts
    requires ready { Ready located.now.table.words.now located.now.table.checks located.now.table.places live.old count.old names.old }
    requires total { (total ≡ length (lives live.old 0 located.now.table.checks))
        × (total ≤ located.now.table.checks) }
    requires room { Room located.now.table.checks order.old owns.old aside.old }
    ensures { Peeled (check located.now.table.words.now located.now.table.checks) located.now.table.checks located.now.table.places total (lives live.old 0 located.now.table.checks)
        order.new owns.new aside.new result.taken result.aside }
{
    let mut taken = 0;
    let mut put = 0;
    let mut top = located.table.places;
    for _left in (0..total).rev() {
        let event = pick(located, live, count, names, top);
        match event {
            Event::Took(p, j) => {
                order[taken] = j as u16;
                owns[taken] = p as u16;
                taken += 1;
                top = remove(live, count, names, located, j, p + 1);
            }
            Event::Aside(j) => {
                aside[put] = j as u16;
                put += 1;
                top = remove(live, count, names, located, j, 0);
            }
        }
    }
    Counts { taken, aside: put }
}

// check j becomes live
fn enter(live: &mut [u8], count: &mut [u16], names: &mut [u16], located: &Located, j: usize)
    requires counts { length count.old ≡ located.now.table.places }
    requires room { (j < located.now.table.checks)
        × (located.now.table.checks ≤ length live.old)
        × (length count.old ≤ length names.old) }
    requires few { (p : ℕ) → get_or count.old p 0 ≤ located.now.table.checks }
    ensures { Entered located.now.table.words.now located.now.table.checks j live.old count.old names.old
        live.new count.new names.new }
{
    live[j] = 1;
    live::note(count, names, located.check(j), j as u16);
}

// the kept checks become live
fn first_tally(
    live: &mut [u8],
    count: &mut [u16],
    names: &mut [u16],
    located: &Located,
    ids: &[u16],
    k: usize,
)
    requires counts { length count.old ≡ located.now.table.places }
    requires kept { Numbers located.now.table.words.now located.now.table.checks ids.now k }
    requires fresh { Fresh located.now.table.checks (length count.old) live.old count.old names.old }
    ensures { First located.now.table.words.now located.now.table.checks (length count.old) live.new count.new names.new }
{
    for i in (0..k).rev() {
        enter(live, count, names, located, usize::from(ids[i]));
    }
}

// the ones of the kept checks
fn ones_of(table: &Table, ids: &[u16], k: usize) -> usize
    requires { Numbers table.now.words.now table.now.checks ids.now k }
    ensures { result ≡ total (map (weight table.now.words.now) (kept_of table.now.words.now table.now.checks)) }
{
    let t = table.words;
    let mut sum = 0;
    for i in (0..k).rev() {
        sum += usize::from(t[4 + usize::from(ids[i])]);
    }
    sum
}

// steps 2 and 3 for the kept checks, with room for flags, counts and names
fn peel_live(
    located: &Located,
    ids: &[u16],
    k: usize,
    live: &mut [u8],
    count: &mut [u16],
    names: &mut [u16],
    order: &mut [u16],
    owns: &mut [u16],
    aside: &mut [u16],
) -> Counts
    requires kept { Numbers located.now.table.words.now located.now.table.checks ids.now k }
    requires fresh { Fresh located.now.table.checks located.now.table.places live.old count.old names.old }
    requires room { Room located.now.table.checks order.old owns.old aside.old }
    ensures { Peeled (check located.now.table.words.now located.now.table.checks) located.now.table.checks located.now.table.places k (kept_of located.now.table.words.now located.now.table.checks)
        order.new owns.new aside.new result.taken result.aside }
{
    first_tally(live, count, names, located, ids, k);
    peel_checks(located, live, count, names, order, owns, aside, k)
}

// steps 2 and 3 for the kept checks
fn peel_kept(
    located: &Located,
    ids: &[u16],
    k: usize,
    order: &mut [u16],
    owns: &mut [u16],
    aside: &mut [u16],
) -> Counts
    requires kept { Numbers located.now.table.words.now located.now.table.checks ids.now k }
    requires room { Room located.now.table.checks order.old owns.old aside.old }
    ensures { Peeled (check located.now.table.words.now located.now.table.checks) located.now.table.checks located.now.table.places k (kept_of located.now.table.words.now located.now.table.checks)
        order.new owns.new aside.new result.taken result.aside }
{
    let mut live = [0u8; MOST_CHECKS];
    let mut count = [0u16; MOST_PLACES];
    let mut names = [0u16; MOST_PLACES];
    peel_live(
        located,
        ids,
        k,
        &mut live,
        &mut count[..located.table.places],
        &mut names,
        order,
        owns,
        aside,
    )
}

#[derive(Drop)]
pub struct Choice {
    pub kept: usize,
    pub ones: usize,
    pub taken: usize,
    pub aside: usize,
}

// steps 1 to 3; the work is zero afterwards
pub fn choose_checks(
    located: &Located,
    work: &mut [u64],
    order: &mut [u16],
    owns: &mut [u16],
    aside: &mut [u16],
) -> Choice
    requires work { length work.old ≡ 8192 }
    requires room { Room 512 order.old owns.old aside.old }
    ensures choice { ChoiceOf located.now.table.words.now order.new owns.new aside.new
        result.kept result.ones result.taken result.aside }
    ensures work { work.new ≡ replicate 8192 0 }
{
    let mut ids = [0u16; MOST_CHECKS];
    let k = keep::keep_checks(&located.table, work, &mut ids);
    let ones = ones_of(&located.table, &ids, k);
    let c = peel_kept(located, &ids, k, order, owns, aside);
    Choice {
        kept: k,
        ones,
        taken: c.taken,
        aside: c.aside,
    }
}
