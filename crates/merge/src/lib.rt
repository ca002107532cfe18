// The receiver with two aerials: merging two blocks and maps into a third, and the old repair of it; the call with its refusals.
#![tactic(auto)]

ghost use Rattle.erasure.specs.Offered.{held};
ghost use Rattle.merge.specs.Merge.{Answers, FittingThree};

use aerials::{AGREED, CLASH, SILENT, SINGLE};
use refusals::Refusal;
use report::Repaired;
use table::Table;

// How many places are agreed, heard by one, heard by none, and in clash; and what the repair reports.
#[derive(Clone, Copy, Debug, PartialEq, Eq)]
pub struct Merged {
    pub agreed: u32,
    pub single: u32,
    pub silent: u32,
    pub clash: u32,
    pub repaired: Repaired,
}

// the call where none of 1 to 7 refuses; the third map holds kinds until they are counted
fn merge_packets(
    table: &Table,
    block1: &[u8],
    map1: &[u8],
    block2: &[u8],
    map2: &[u8],
    block3: &mut [u8],
    map3: &mut [u8],
) -> Result<Merged, Refusal>
    requires { FittingThree table.now.words.now (held block1.now map1.now) (held block2.now map2.now) (held block3.old map3.old) }
    ensures { Answers table.now.words.now
        (held block1.now map1.now)
        (held block2.now map2.now)
        (held block3.old map3.old)
        result block3.new map3.new }
{
    aerials::hear_all(
        table.places,
        table.size,
        block1,
        map1,
        block2,
        map2,
        block3,
        map3,
    );
    let agreed = marks::tally_of(map3, AGREED);
    let single = marks::tally_of(map3, SINGLE);
    let silent = marks::tally_of(map3, SILENT);
    let clash = marks::tally_of(map3, CLASH);
    aerials::mark_lost(map3);
    let repaired = restore::restore_packets(table, block3, map3)?;
    Ok(Merged {
        agreed,
        single,
        silent,
        clash,
        repaired,
    })
}

// Merges what two listeners have of one block into a third, and restores what the checks can restore of
// the places that none heard or that are in clash. What the third block and map hold beforehand never counts.
pub fn merge(
    t: &[u16],
    block1: &[u8],
    map1: &[u8],
    block2: &[u8],
    map2: &[u8],
    block3: &mut [u8],
    map3: &mut [u8],
) -> Result<Merged, Refusal>
    ensures { Answers t.now
        (held block1.now map1.now)
        (held block2.now map2.now)
        (held block3.old map3.old)
        result block3.new map3.new }
{
    let table = Table::new(t)?;
    if marks::wrong_lengths(block1, map1, table.places, table.size) {
        return Err(Refusal::Buffer);
    }
    if marks::wrong_lengths(block2, map2, table.places, table.size) {
        return Err(Refusal::Buffer);
    }
    if marks::wrong_lengths(block3, map3, table.places, table.size) {
        return Err(Refusal::Buffer);
    }
    if marks::over(map1, 1) {
        return Err(Refusal::Map);
    }
    if marks::over(map2, 1) {
        return Err(Refusal::Map);
    }
    merge_packets(&table, block1, map1, block2, map2, block3, map3)
}
