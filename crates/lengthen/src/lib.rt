// A longer table in the middle of a pass: block and map are carried over, arrivals are entered, and the old repair goes on; the call with its refusals.
#![tactic(auto)]

ghost use Rattle.std.specs.Prelude.{◌≡◌};
ghost use Rattle.erasure.specs.Offered.{held};
ghost use Rattle.lengthen.specs.Lengthen.{Answers, LengthenFitting, offer_causes};
ghost use Rattle.refusals.specs.Refusals.{refusal_of};
ghost use Rattle.table.specs.FirstCause.{first_cause};

use refusals::Refusal;
use report::Repaired;
use table::Table;

// the first cause but 8 that refuses, if there is one
fn look(
    old: &Table,
    new: &Table,
    block: &[u8],
    map: &[u8],
    arrivals: &[u8],
    arrived: &[u8],
) -> Result<(), Refusal>
    ensures { refusal_of result
        ≡ first_cause (offer_causes old.now.words.now new.now.words.now
        (held block.now map.now)
        (held arrivals.now arrived.now)) }
{
    if marks::wrong_lengths(block, map, new.places, new.size) {
        return Err(Refusal::Buffer);
    }
    if marks::wrong_lengths(arrivals, arrived, new.places, new.size) {
        return Err(Refusal::Buffer);
    }
    if !longer::is_lengthening(old, new) {
        return Err(Refusal::NotLonger);
    }
    if marks::over(&map[..old.places], 2) {
        return Err(Refusal::OldMap);
    }
    if marks::over(arrived, 1) {
        return Err(Refusal::Map);
    }
    Ok(())
}

// the call where nothing before 8 refuses
fn go_on(
    old: &Table,
    new: &Table,
    block: &mut [u8],
    map: &mut [u8],
    arrivals: &[u8],
    arrived: &[u8],
) -> Result<Repaired, Refusal>
    requires { LengthenFitting old.now.words.now new.now.words.now
        (held block.old map.old)
        (held arrivals.now arrived.now) }
    ensures { Answers old.now.words.now new.now.words.now
        (held block.old map.old)
        (held arrivals.now arrived.now)
        result block.new map.new }
{
    entering::enter_all(
        old.places, new.places, new.size, block, map, arrivals, arrived,
    );
    Ok(restore::restore_packets(new, block, map)?)
}

// Goes on with a block and map under a longer table: what they hold at new places never counts; arrivals are entered where a
// place is lost, and lost places are restored as repair does, but nobody is blamed.
pub fn lengthen(
    old: &[u16],
    new: &[u16],
    block: &mut [u8],
    map: &mut [u8],
    arrivals: &[u8],
    arrived: &[u8],
) -> Result<Repaired, Refusal>
    ensures { Answers old.now new.now
        (held block.old map.old)
        (held arrivals.now arrived.now)
        result block.new map.new }
{
    let before = Table::new(old)?;
    let after = Table::new(new)?;
    look(&before, &after, block, map, arrivals, arrived)?;
    go_on(&before, &after, block, map, arrivals, arrived)
}
