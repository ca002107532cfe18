// The used checks of a block, with the rows that fed each, and the walk back from a place to the checks that restore it.
#![tactic(auto)]

ghost use Rattle.std.specs.Prelude.{◌≡◌, map, ℕ, ◌+◌, ◌-◌, ◌*◌, ◌≤◌, ◌<◌, length, get_or};
ghost use Rattle.lists.specs.Lists.{All};
ghost use Rattle.gf2.specs.Gf2.{row_of};
ghost use Rattle.bits.specs.Front.{Front};
ghost use Rattle.bits.specs.Row.{row, above, RowPut};
ghost use Rattle.rows.specs.Leads.{Owners, Lowered};
ghost use Rattle.reasons.specs.Mirror.{mirror, mirror_row};
ghost use Rattle.reasons.specs.Reasons.{named};
ghost use Rattle.reasons.specs.Trace.{trace as traced};
ghost use Rattle.reasons.specs.Noting.{bits_below};
ghost use Rattle.tracing.specs.Tracing.{number_in, feeders, Led, Taken};

use table::{MOST_PLACES, Table};

// the bit at which place p stands, the highest place lowest
pub fn bit_of(p: usize, n: usize) -> usize
    requires { p < n }
    ensures { result ≡ mirror n p }
{
    n - 1 - p
}

// ---- a check

// the lost places of a check become row k, each at its bit
fn load_lost(w: &mut [u64], k: usize, places: &[u16], lost: &[u8], n: usize)
    requires { (k * 16 + 16 ≤ length w.old)
        × All (λ p. p < n) places.now
        × (n ≤ length lost.now)
        × (n ≤ 1024) }
    ensures { RowPut w.old k (mirror_row n lost.now places.now) w.new }
{
    bits::clear(w, k);
    for q in places {
        let p = usize::from(*q);
        if lost[p] == 1 {
            bits::flip(w, k, bit_of(p, n));
        }
    }
}

// the rows that lead the noted places become row k of feed
pub fn note_feeders(feed: &mut [u64], k: usize, owner: &[u16], noted: &[u16])
    requires room { k * 16 + 16 ≤ length feed.old }
    requires led { Led owner.now noted.now }
    ensures { RowPut feed.old k (row_of (map (number_in owner.now) noted.now)) feed.new }
{
    bits::clear(feed, k);
    for q in noted {
        let o = usize::from(owner[usize::from(*q)]);
        bits::flip(feed, k, o - 1);
    }
}

// the row of a check's lost places, reduced as row k, with the rows that fed it; its highest bit, if it didn't vanish
fn take_check(
    table: &Table,
    places: &[u16],
    lost: &[u8],
    w: &mut [u64],
    owner: &[u16],
    k: usize,
    feed: &mut [u64],
    noted: &mut [u16],
) -> Option<usize>
    requires check { All (λ p. p < table.now.places) places.now }
    requires lost { table.now.places ≤ length lost.now }
    requires rows { (k * 16 + 16 ≤ length w.old)
        × (k * 16 + 16 ≤ length feed.old)
        × (table.now.places ≤ 1024)
        × (table.now.places ≤ length owner.now)
        × (table.now.places ≤ length noted.old)
        × (k ≤ 1024)
        × ((p : ℕ) → get_or owner.now p 0 ≤ k)
        × Owners w.old owner.now k }
    ensures row { Lowered w.old owner.now k table.now.places (mirror_row table.now.places lost.now places.now) w.new (above result) }
    ensures feeders { RowPut feed.old k (row_of (feeders w.old owner.now table.now.places (mirror_row table.now.places lost.now places.now))) feed.new }
{
    load_lost(w, k, places, lost, table.places);
    let r = rows::reduce(w, owner, k, table.places, noted);
    note_feeders(feed, k, owner, &noted[..r.count]);
    r.lead
}

// all checks, one after another: the numbers of the used ones, and how many
pub fn take_checks(
    table: &Table,
    lost: &[u8],
    w: &mut [u64],
    owner: &mut [u16],
    feed: &mut [u64],
    ids: &mut [u16],
) -> usize
    requires lost { table.now.places ≤ length lost.now }
    requires room { (table.now.checks * 16 ≤ length w.old)
        × (table.now.checks * 16 ≤ length feed.old)
        × (table.now.places ≤ length owner.old)
        × (table.now.checks ≤ length ids.old) }
    requires unowned { (p : ℕ) → get_or owner.old p 0 ≡ 0 }
    ensures { Taken table.now.words.now table.now.places lost.now w.new owner.new feed.new ids.new result }
{
    let mut noted = [0u16; MOST_PLACES];
    let mut k = 0;
    let mut at = 5 + table.checks;
    for i in 0..table.checks {
        let weight = usize::from(table.words[4 + i]);
        let places = table::run(table.words, at, weight);
        if let Some(p) = take_check(table, places, lost, w, owner, k, feed, &mut noted) {
            owner[p] = (k + 1) as u16;
            ids[k] = i as u16;
            k += 1;
        }
        at += weight;
    }
    k
}

// ---- a place

// the walk over the used checks below k, from the last to the first: each that is needed flips those that fed it; it calls itself,
// as document 01 asks ("How to write each place")
fn trace(need: &mut [u64], feed: &[u64], k: usize)
    requires { (16 ≤ length need.old)
        × (k * 16 ≤ length feed.now)
        × (k ≤ 1024) }
    ensures { RowPut need.old 0 (traced (row feed.now) k (row need.old 0)) need.new }
{
    if 0 < k {
        let last = k - 1;
        if bits::has_place(need, 0, last) {
            bits::add_from(need, 0, feed, last);
        }
        trace(need, feed, last);
    }
}

// those of the used checks that are needed, ascending, and how many
fn write_checks(need: &[u64], ids: &[u16], list: &mut [u16]) -> usize
    requires { (16 ≤ length need.now)
        × (length ids.now ≤ 1024)
        × (length ids.now ≤ length list.old) }
    ensures list { Front (named (bits_below (length ids.now) (row need.now 0)) ids.now) list.old list.new result }
    ensures few { result ≤ length ids.now }
{
    let mut c = 0;
    for (i, id) in ids.iter().enumerate() {
        if bits::has_place(need, 0, i) {
            list[c] = *id;
            c += 1;
        }
    }
    c
}

// The checks that restore a place whose row vanished by the rows that lead the noted places: written in front, and how many.
pub fn list_checks(
    feed: &[u64],
    owner: &[u16],
    noted: &[u16],
    ids: &[u16],
    list: &mut [u16],
) -> usize
    requires room { (length ids.now * 16 ≤ length feed.now)
        × (length ids.now ≤ 1024)
        × (length ids.now ≤ length list.old) }
    requires led { Led owner.now noted.now }
    ensures list { Front (named (bits_below (length ids.now) (traced (row feed.now) (length ids.now) (row_of (map (number_in owner.now) noted.now))))
        ids.now) list.old list.new result }
    ensures few { result ≤ length ids.now }
{
    let mut need = [0u64; 16];
    note_feeders(&mut need, 0, owner, noted);
    trace(&mut need, feed, ids.len());
    write_checks(&need, ids, list)
}
