// Elimination over the lost places of a block, the checks: every check's lost places as a row, reduced by the rows taken before it, with the sum of its
// packets. A row's sum stands in the block at the row's highest place, which is lost.
#![tactic(auto)]

ghost use Rattle.std.specs.Prelude.{◌≡◌, [], ℕ, ◌+◌, ◌*◌, ◌≤◌, ◌<◌, length, get_or, replicate};
ghost use Rattle.std.specs.Result.{is_ok};
ghost use Rattle.lists.specs.Lists.{All};
ghost use Rattle.table.specs.Packets.{packets, packet_sum};
ghost use Rattle.packets.specs.Given.{Given};
ghost use Rattle.erasure.specs.Restoring.{lost_places};
ghost use Rattle.bits.specs.Front.{Front};
ghost use Rattle.bits.specs.Row.{RowPut};
ghost use Rattle.rows.specs.Leads.{leads, Owners, Lowered};
ghost use Rattle.decided.specs.Decided.{lost_row};
ghost use Rattle.eliminate.specs.Eliminating.{received_places, lead_of, Summed, NoneLost, Eliminated};

use table::{MOST_PLACES, MOST_WEIGHT, Table};

// room for the places of a check and of all rows that reduce it
pub const MOST_NOTED: usize = MOST_PLACES + MOST_WEIGHT;

// the lost places of a check become row r; its received places are noted, and their number returned
fn part_check(w: &mut [u64], r: usize, places: &[u16], map: &[u8], noted: &mut [u16]) -> usize
    requires { (r * 16 + 16 ≤ length w.old)
        × All (λ p. p < length map.now) places.now
        × (length map.now ≤ 1024)
        × (length places.now ≤ length noted.old) }
    ensures row { RowPut w.old r (lost_row map.now places.now) w.new }
    ensures noted { Front (received_places map.now places.now) noted.old noted.new result }
{
    bits::clear(w, r);
    let mut k = 0;
    for p in places {
        let q = usize::from(*p);
        if map[q] == 1 {
            bits::flip(w, r, q);
        } else {
            noted[k] = *p;
            k += 1;
        }
    }
    k
}

// a row vanishes and its sum doesn't
#[derive(Clone, Copy, Debug, PartialEq, Eq)]
pub struct Clash;

// the row of a check's lost places, reduced; if something is left of it, its sum is stored at its highest place
fn take_check(
    table: &Table,
    places: &[u16],
    block: &mut [u8],
    map: &[u8],
    w: &mut [u64],
    owner: &[u16],
    k: usize,
    noted: &mut [u16],
) -> Result<Option<usize>, Clash>
    requires given { Given places.now block.old table.now.places table.now.size }
    requires map { length map.now ≡ table.now.places }
    requires rows { (k * 16 + 16 ≤ length w.old)
        × (table.now.places ≤ 1024)
        × (table.now.places ≤ length owner.now)
        × (length places.now + table.now.places ≤ length noted.old)
        × Owners w.old owner.now k }
    requires known { lost_places map.now places.now ≡ []
        → packet_sum table.now.size (packets table.now.size table.now.places block.old) places.now ≡ replicate table.now.size 0 }
    ensures row { Lowered w.old owner.now k table.now.places (lost_row map.now places.now) w.new (lead_of result) }
    ensures sum { Summed table.now.size table.now.places map.now places.now (leads w.old owner.now) block.old result block.new }
{
    let n = table.places;
    let s = table.size;
    let have = part_check(w, k, places, map, noted);
    if have == places.len() {
        return Ok(None);
    }
    let r = rows::reduce(w, owner, k, n, &mut noted[have..]);
    let all = have + r.count;
    match r.lead {
        Some(p) => packets::restore(&noted[..all], block, n, s, n, p),
        None => {
            if sums::sum_of_check(&noted[..all], block, n, s).is_some() {
                return Err(Clash);
            }
        }
    }
    Ok(r.lead)
}

// all checks, one after the other, until one clashes
pub fn take_all(
    table: &Table,
    block: &mut [u8],
    map: &[u8],
    w: &mut [u64],
    owner: &mut [u16],
) -> Result<(), Clash>
    requires room { (length block.old ≡ table.now.places * table.now.size)
        × (length map.now ≡ table.now.places)
        × (table.now.checks * 16 ≤ length w.old)
        × (table.now.places ≤ length owner.old) }
    requires unowned { (p : ℕ) → get_or owner.old p 0 ≡ 0 }
    requires known { NoneLost table.now.words.now table.now.places table.now.size block.old map.now }
    ensures { Eliminated table.now.words.now table.now.places table.now.size block.old map.now (is_ok result)
        w.new owner.new block.new }
{
    let mut noted = [0u16; MOST_NOTED];
    let mut k = 0;
    let mut at = 5 + table.checks;
    for i in 0..table.checks {
        let weight = usize::from(table.words[4 + i]);
        let places = table::run(table.words, at, weight);
        if let Some(p) = take_check(table, places, block, map, w, owner, k, &mut noted)? {
            owner[p] = (k + 1) as u16;
            k += 1;
        }
        at += weight;
    }
    Ok(())
}
