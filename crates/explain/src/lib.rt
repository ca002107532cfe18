// The reason for one lost place: the checks that restore it, or the least set of lost places with it.
#![tactic(auto)]

ghost use Rattle.std.specs.Prelude.{true, ◌≡◌, ◌+◌, ◌*◌, ◌^◌, ◌≤◌, ◌<◌, length};
ghost use Rattle.erasure.specs.Restoring.{is_lost};
ghost use Rattle.gf2.specs.Gf2.{path};
ghost use Rattle.table.specs.Table.{checks};
ghost use Rattle.bits.specs.Front.{Front};
ghost use Rattle.bits.specs.Row.{above};
ghost use Rattle.rows.specs.Leads.{leads, Owners, Lowered};
ghost use Rattle.reasons.specs.Mirror.{mirror};
ghost use Rattle.explain.specs.Telling.{Tells};

use rows::Reduced;
use table::{MOST_CHECKS, MOST_PLACES, Table, WORK_WORDS};

// the row of the place: behind those of the checks
const PLACE_ROW: usize = MOST_CHECKS;

// the words of all these rows
const ROW_WORDS: usize = WORK_WORDS + 16;

// the place alone, as a row that is reduced; the places that lead the rows added are noted
fn reduce_place(w: &mut [u64], owner: &[u16], n: usize, place: usize, noted: &mut [u16]) -> Reduced
    requires rows { Owners w.old owner.now 512
        × (8208 ≤ length w.old) }
    requires room { (n ≤ 1024)
        × (n ≤ length owner.now)
        × (n ≤ length noted.old)
        × (place < n) }
    ensures row { Lowered w.old owner.now 512 n (2 ^ mirror n place) w.new (above result.lead) }
    ensures path { Front (path (leads w.old owner.now) n (2 ^ mirror n place)) noted.old noted.new result.count }
{
    bits::clear(w, PLACE_ROW);
    bits::flip(w, PLACE_ROW, tracing::bit_of(place, n));
    rows::reduce(w, owner, PLACE_ROW, n, noted)
}

// why a packet is missing, or that it isn't, with the length of the list that says it
#[derive(Clone, Copy, Debug, PartialEq, Eq)]
pub enum Told {
    Received,
    Restored(u32),
    Lost(u32),
}

// The list for a lost place, written in front; feed holds what fed each used check afterwards.
pub fn explain(table: &Table, lost: &[u8], place: usize, feed: &mut [u64], list: &mut [u16]) -> Told
    requires lost { table.now.places ≤ length lost.now }
    requires place { (place < table.now.places)
        × (is_lost lost.now place ≡ true) }
    requires room { (table.now.checks * 16 ≤ length feed.old)
        × (1024 ≤ length list.old) }
    ensures { Tells table.now.places (checks table.now.words.now) lost.now place result list.old list.new }
{
    let n = table.places;
    let mut w = [0u64; ROW_WORDS];
    let mut owner = [0u16; MOST_PLACES];
    let mut ids = [0u16; MOST_CHECKS];
    let k = tracing::take_checks(table, lost, &mut w, &mut owner, feed, &mut ids);
    let mut noted = [0u16; MOST_PLACES];
    let r = reduce_place(&mut w, &owner, n, place, &mut noted);
    match r.lead {
        None => {
            let length = tracing::list_checks(feed, &owner, &noted[..r.count], &ids[..k], list);
            Told::Restored(length as u32)
        }
        Some(f) => {
            let length = least::list_places(&w, &owner, n, f, list);
            Told::Lost(length as u32)
        }
    }
}
