// The receiver: full repair, the call with its refusals.
#![tactic(auto)]

ghost use Rattle.std.specs.Prelude.{◌≡◌, ◌*◌, ◌≤◌, length};
ghost use Rattle.full.specs.Full.{Answers, FittingAll};
ghost use Rattle.full.specs.Deciding.{Decides};

use refusals::Refusal;
use table::{MOST_PLACES, Table, WORK_WORDS};

// How many places full repair restored, and how many are still lost.
#[derive(Clone, Copy, Debug, PartialEq, Eq)]
pub struct FullyRepaired {
    pub restored: u32,
    pub lost: u32,
}

// the turns of repair, then elimination over what is still lost; false where no codeword agrees with the received packets
fn decide(table: &Table, block: &mut [u8], map: &mut [u8], work: &mut [u64]) -> bool
    requires { (length block.old ≡ table.now.places * table.now.size)
        × (length map.old ≡ table.now.places)
        × (table.now.checks * 16 ≤ length work.old) }
    ensures { Decides table.now.words.now block.old map.old result block.new map.new }
{
    restore::restore_packets(table, block, map).is_ok()
        && settle::solve(table, block, map, work).is_ok()
}

// the call where none of 1 to 7 refuses
fn full_packets(
    table: &Table,
    block: &mut [u8],
    map: &mut [u8],
    work: &mut [u64],
) -> Result<FullyRepaired, Refusal>
    requires { FittingAll table.now.words.now block.old map.old work.old }
    ensures { Answers table.now.words.now block.old map.old work.old result block.new map.new work.new }
{
    let mut saved = [0u8; MOST_PLACES];
    packets::copy(&mut saved, 0, map, 0, table.places);
    let agrees = decide(table, block, map, work);
    work.fill(0);
    if agrees {
        return Ok(FullyRepaired {
            restored: marks::tally_of(map, 2),
            lost: marks::tally_of(map, 1),
        });
    }
    packets::copy(map, 0, &saved, 0, table.places);
    marks::zero_lost(table, block, map);
    Err(Refusal::NoCodeword)
}

// Restores every lost place that the received packets decide.
pub fn full_repair(
    t: &[u16],
    block: &mut [u8],
    map: &mut [u8],
    work: &mut [u64],
) -> Result<FullyRepaired, Refusal>
    ensures { Answers t.now block.old map.old work.old result block.new map.new work.new }
{
    let table = Table::new(t)?;
    if marks::wrong_lengths(block, map, table.places, table.size) || work.len() != WORK_WORDS {
        return Err(Refusal::Buffer);
    }
    if marks::over(map, 1) {
        return Err(Refusal::Map);
    }
    full_packets(&table, block, map, work)
}
