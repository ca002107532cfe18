// Step 5 of the rule: the columns of the set-aside checks, the fitted places and the rows of the inverse.
#![tactic(auto)]

ghost use Rattle.std.specs.Prelude.{List, [], map, ℕ, ◌≤◌, ◌<◌, length, get_or, take};
ghost use Rattle.std.specs.Int.Bits.{bit_xor};
ghost use Rattle.lists.specs.Lists.{All, Distinct};
ghost use Rattle.rule.specs.Rule.{put_in_all};
ghost use Rattle.rule.specs.Buffers.{solved, Fitted};
ghost use Rattle.table.specs.Checks.{check};
ghost use Rattle.table.specs.Table.{places};
ghost use Rattle.live.specs.Live.{Upd};
ghost use Rattle.columns.specs.Cols.{Columns, Taken};
ghost use Rattle.columns.specs.Fitting.{Aside, Ready};
ghost use Rattle.gf2.specs.Gf2.{row_of};

use table::{Located, MOST_PLACES};

// c added into the columns of these places
fn spread(col: &mut [u32], places: &[u16], c: u32)
    requires places { All (λ p. p < length col.old) places.now }
    requires apart { Distinct places.now }
    ensures { Upd (λ a. bit_xor a c) col.old places.now col.new }
{
    for p in places {
        col[usize::from(*p)] ^= c;
    }
}

// bit i of a place's column: whether the i-th set-aside check holds the place
pub fn fill_columns(col: &mut [u32], located: &Located, aside: &[u16], g: usize)
    requires aside { Aside located.now.table.words.now located.now.table.checks located.now.starts.now aside.now g }
    requires room { places located.now.table.words.now ≤ length col.old }
    requires empty { Columns [] col.old }
    ensures { Columns (map row_of (map (check located.now.table.words.now located.now.table.checks) (take g aside.now))) col.new }
{
    for i in 0..g {
        spread(col, located.check(usize::from(aside[i])), 1 << i);
    }
}

// one solved check put in
fn push(col: &mut [u32], places: &[u16], own: usize)
    requires places { All (λ p. p < length col.old) places.now }
    requires apart { Distinct places.now }
    requires own { own < length col.old }
    ensures { Upd (λ a. bit_xor a (get_or col.old own 0)) col.old places.now col.new }
{
    let c = col[own];
    spread(col, places, c);
}

// all of them, in the order of taking
// (order, owns and their count are passed one by one: the definitions take each, so a struct is no plainer in the clauses)
pub fn push_all(col: &mut [u32], located: &Located, order: &[u16], owns: &[u16], taken: usize)
    requires taken { Taken located.now.table.words.now located.now.table.checks located.now.starts.now order.now owns.now taken }
    requires room { places located.now.table.words.now ≤ length col.old }
    ensures { (E : List ℕ) → Columns E col.old
        → Columns (map (put_in_all (solved (check located.now.table.words.now located.now.table.checks) order.now owns.now taken)) E) col.new }
{
    for k in 0..taken {
        let places = located.check(usize::from(order[k]));
        push(col, places, usize::from(owns[k]));
    }
}

// the fitted places ascending, and with each its row of the inverse
pub fn fit_places(
    located: &Located,
    order: &[u16],
    owns: &[u16],
    taken: usize,
    aside: &[u16],
    g: usize,
    fitted: &mut [u16],
    rows: &mut [u32],
)
    requires ready { Ready located.now.table.words.now located.now.table.checks located.now.table.places located.now.starts.now order.now owns.now taken aside.now g }
    requires fitted { g ≤ length fitted.old }
    requires rows { g ≤ length rows.old }
    ensures { Fitted located.now.table.places (solved (check located.now.table.words.now located.now.table.checks) order.now owns.now taken)
        (map (check located.now.table.words.now located.now.table.checks) (take g aside.now)) g fitted.new rows.new }
{
    let mut col = [0u32; MOST_PLACES];
    fill_columns(&mut col, located, aside, g);
    push_all(&mut col, located, order, owns, taken);
    masks::units(rows, g);
    masks::fit(&col, located.table.places, g, rows, fitted);
}
