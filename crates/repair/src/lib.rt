// The receiver: repair, the call with its refusals; where one packet is bad, repair without it.
#![tactic(auto)]

ghost use Rattle.std.specs.Prelude.{◌≡◌, true, ◌<◌};
ghost use Rattle.suspects.specs.Blame.{lost_too};
ghost use Rattle.erasure.specs.Offered.{Fitting};
ghost use Rattle.erasure.specs.Restoring.{agreeing};
ghost use Rattle.refusals.specs.Refusals.{check_of, byte_of};
ghost use Rattle.repair.specs.Repair.{Answers};
ghost use Rattle.repair.specs.Parts.{Without};

use refusals::{Fault, Refusal};
use report::Repaired;
use table::Table;

// the repair with place p marked lost too, by which nothing contradicts; p is marked 3
fn repair_without(
    table: &Table,
    block: &mut [u8],
    map: &mut [u8],
    p: usize,
) -> Result<Repaired, Refusal>
    requires fits { Fitting table.now.words.now block.old map.old }
    requires place { p < table.now.places }
    requires agrees { agreeing table.now.words.now block.old (lost_too map.old p) ≡ true }
    ensures { Without table.now.words.now block.old map.old p result block.new map.new }
{
    map[p] = 1;
    let done = restore::restore_packets(table, block, map)?;
    map[p] = 3;
    Ok(done)
}

// the call where none of 1 to 7 refuses
fn repair_packets(table: &Table, block: &mut [u8], map: &mut [u8]) -> Result<Repaired, Refusal>
    requires { Fitting table.now.words.now block.old map.old }
    ensures { Answers table.now.words.now block.old map.old result block.new map.new }
{
    match restore::restore_packets(table, block, map) {
        Ok(done) => Ok(done),
        Err(fault) => match blame::only_suspect(table, block, map, fault.byte as usize) {
            None => Err(Refusal::Contradiction(fault)),
            Some(p) => repair_without(table, block, map, p),
        },
    }
}

// Restores what the checks can restore of the lost places. Where the received packets contradict each
// other, and one place alone, marked lost too, is restored so that they no longer do, that is the repair.
pub fn repair(t: &[u16], block: &mut [u8], map: &mut [u8]) -> Result<Repaired, Refusal>
    ensures { Answers t.now block.old map.old result block.new map.new }
{
    let table = Table::new(t)?;
    if marks::wrong_lengths(block, map, table.places, table.size) {
        return Err(Refusal::Buffer);
    }
    if marks::over(map, 1) {
        return Err(Refusal::Map);
    }
    repair_packets(&table, block, map)
}

// What a refusal hands on, this call's or another's: the lowest check that fails with its byte, else 0 and 0.
pub fn told(refusal: Refusal) -> Fault
    ensures check { result.check ≡ check_of refusal }
    ensures byte { result.byte ≡ byte_of refusal }
{
    match refusal {
        Refusal::Contradiction(fault) => fault,
        _ => Fault { check: 0, byte: 0 },
    }
}
