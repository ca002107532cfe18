// The turns of restoring: the lowest check with exactly one lost place restores it, as long as there is one.
#![tactic(auto)]

ghost use Rattle.std.specs.Prelude.{◌≡◌, ◌*◌, ◌<◌, length, get_or};
ghost use Rattle.lists.specs.Lists.{All};
ghost use Rattle.packets.specs.Given.{Given};
ghost use Rattle.table.specs.Table.{checks};
ghost use Rattle.chains.specs.Linked.{Linked, Counted};
ghost use Rattle.erasure.specs.Restoring.{lost_places, turn};
ghost use Rattle.erasure.specs.States.{Holds, Restored, state_of};
ghost use Rattle.turns.specs.Spent.{Spent};

use table::{Located, Table};

// the first lost place of a check, 0 if there is none: its caller has one, and an Option would only move that case there
fn first_lost(places: &[u16], map: &[u8]) -> usize
    requires { All (λ p. p < length map.now) places.now }
    ensures { result ≡ get_or (lost_places map.now places.now) 0 0 }
{
    for p in places {
        let p = usize::from(*p);
        if map[p] == 1 {
            return p;
        }
    }
    0
}

// the check with these places, of which one is lost, restores that place and returns it
fn restore_one(table: &Table, places: &[u16], block: &mut [u8], map: &mut [u8]) -> usize
    requires given { Given places.now block.old table.now.places table.now.size }
    requires map { length map.old ≡ table.now.places }
    requires one { length (lost_places map.old places.now) ≡ 1 }
    ensures place { result ≡ get_or (lost_places map.old places.now) 0 0 }
    ensures turn { Holds (turn table.now.size places.now (state_of table.now.size table.now.places block.old map.old 0)) block.new map.new }
{
    let p = first_lost(places, map);
    packets::restore(places, block, table.places, table.size, p, p);
    map[p] = 2;
    p
}

// while some check has exactly one lost place, the lowest such check restores it; the additions
pub fn restore_all(
    located: &Located,
    head: &[u16],
    next: &[u16],
    owner: &[u16],
    count: &mut [u16],
    block: &mut [u8],
    map: &mut [u8],
    used: &mut [u8],
) -> usize
    requires { Linked located.now.table.words.now located.now.table.checks located.now.table.places head.now next.now owner.now
        × Counted located.now.table.words.now located.now.table.checks map.old count.old
        × (length block.old ≡ located.now.table.places * located.now.table.size)
        × (length map.old ≡ located.now.table.places)
        × Spent located.now.table.words.now located.now.table.checks located.now.table.places located.now.table.size block.old map.old used.old }
    ensures { Restored located.now.table.places located.now.table.size (checks located.now.table.words.now) block.old map.old block.new map.new result
        × Counted located.now.table.words.now located.now.table.checks map.new count.new
        × Spent located.now.table.words.now located.now.table.checks located.now.table.places located.now.table.size block.new map.new used.new }
{
    let table = &located.table;
    let mut adds = 0;
    let mut low = 0;
    while let Some(j) = chains::lowest_one(count, low, table.checks) {
        let places = located.check(j);
        let p = restore_one(table, places, block, map);
        low = chains::walk(next, owner, count, usize::from(head[p]), j);
        used[j] = 1;
        adds += places.len() - 1;
    }
    adds
}
