// The core of the receiver: restores lost places. A map byte of 1 is lost, any other is known.
#![tactic(auto)]

ghost use Rattle.std.specs.Prelude.{◌≡◌, ◌*◌, length};
ghost use Rattle.table.specs.Table.{checks};
ghost use Rattle.chains.specs.Linked.{Counted};
ghost use Rattle.faults.specs.Faults.{fault_found};
ghost use Rattle.erasure.specs.Restoring.{contradiction};
ghost use Rattle.erasure.specs.States.{Restored, state_of};
ghost use Rattle.turns.specs.Spent.{Spent};
ghost use Rattle.restore.specs.Mending.{Mends};

use refusals::Fault;
use report::Repaired;
use table::{Located, MOST_CHECKS, MOST_PLACES, MOST_WORDS, Table};

// The additions of all turns, and the lowest check that fails after them, with its byte.
#[derive(Clone, Copy, Debug, PartialEq, Eq)]
pub struct Turned {
    pub adds: usize,
    pub fault: Option<Fault>,
}

// all turns, with counts and chains made first, and the look at the checks after them
pub fn restore_lost(located: &Located, block: &mut [u8], map: &mut [u8]) -> Turned
    requires { (length block.old ≡ located.now.table.places * located.now.table.size)
        × (length map.old ≡ located.now.table.places) }
    ensures { Restored located.now.table.places located.now.table.size (checks located.now.table.words.now) block.old map.old block.new map.new result.adds
        × (fault_found result.fault
        ≡ contradiction located.now.table.size (checks located.now.table.words.now) (state_of located.now.table.size located.now.table.places block.new map.new 0)) }
{
    // fixed buffers, and chains of indices in them: there is no heap
    let mut count = [0u16; MOST_CHECKS];
    let mut head = [0u16; MOST_PLACES];
    let mut next = [0u16; MOST_WORDS];
    let mut owner = [0u16; MOST_WORDS];
    let mut used = [0u8; MOST_CHECKS];
    chains::count_all(located, map, &mut count);
    chains::link_all(located, &mut head, &mut next, &mut owner);
    let adds = turns::restore_all(
        located, &head, &next, &owner, &mut count, block, map, &mut used,
    );
    let fault = verify::lowest_failing(&located.table, block, |j| {
        marks::to_sum(count[j], used[j])
    });
    Turned { adds, fault }
}

// Restores what the checks can restore of the lost places; on contradiction lost places are zero
// and the map is what it was.
pub fn restore_packets(table: &Table, block: &mut [u8], map: &mut [u8]) -> Result<Repaired, Fault>
    requires { (length block.old ≡ table.now.places * table.now.size)
        × (length map.old ≡ table.now.places) }
    ensures { Mends table.now.words.now block.old map.old result block.new map.new }
{
    let mut starts = [0u16; MOST_CHECKS];
    let mut saved = [0u8; MOST_PLACES];
    table::fill_starts(table, &mut starts);
    let located = Located {
        table: *table,
        starts: &starts,
    };
    packets::copy(&mut saved, 0, map, 0, table.places);
    let before = marks::tally_of(map, 1);
    marks::zero_lost(table, block, map);
    let done = restore_lost(&located, block, map);
    if let Some(fault) = done.fault {
        packets::copy(map, 0, &saved, 0, table.places);
        marks::zero_lost(table, block, map);
        return Err(fault);
    }
    let lost = marks::tally_of(map, 1);
    Ok(Repaired {
        restored: before - lost,
        lost,
        additions: done.adds as u32,
    })
}
