// One trial: whether a received place is a suspect.
#![tactic(auto)]

ghost use Rattle.std.specs.Prelude.{◌≡◌, ◌<◌};
ghost use Rattle.suspects.specs.Blame.{suspect};
ghost use Rattle.trials.specs.Cleared.{Cleared};

use table::{MOST_BYTES, MOST_PLACES, Table};

// Whether place p is a suspect: a repair with that place marked lost too finds no contradiction, and restores the place.
// Block and map are as they were afterwards.
pub fn try_place(table: &Table, block: &mut [u8], map: &mut [u8], p: usize) -> bool
    requires block { Cleared table.now.places table.now.size block.old map.old }
    requires place { p < table.now.places }
    ensures suspect { result ≡ suspect table.now.words.now block.old map.old p }
    ensures block { block.new ≡ block.old }
    ensures map { map.new ≡ map.old }
{
    if map[p] != 0 {
        return false;
    }
    let n = table.places;
    let s = table.size;
    let mut saved = [0u8; MOST_PLACES];
    let mut kept = [0u8; MOST_BYTES];
    packets::copy(&mut saved, 0, map, 0, n);
    packets::copy(&mut kept, 0, block, p * s, s);
    map[p] = 1;
    let agrees = restore::restore_packets(table, block, map).is_ok();
    let found = agrees && map[p] != 1;
    packets::copy(map, 0, &saved, 0, n);
    marks::zero_lost(table, block, map);
    packets::copy(block, p * s, &kept, 0, s);
    found
}
