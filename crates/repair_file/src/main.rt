// repair_file TABLE BLOCK MAP: restores what it can of the lost packets, and writes block and map
// back. Where the received packets contradict, and no place is blamed for it, the block goes back
// too, zero at its lost places.
#![tactic(auto)]

ghost use Rattle.std.specs.Prelude.{◌≡◌, ℕ, ◌<◌, length, get_or, MatchOption, EachIndex};

use refusals::{Fault, Refusal};
use report::Repaired;
use std::io::Print;
use std::rt::Runtime;

// the most bytes of a block
const MOST_BLOCK: usize = 32768;

// the mark of a place that is blamed
const BLAMED: u8 = 3;

// The place that is blamed: the first marked 3.
fn blamed(map: &[u8]) -> Option<usize>
    ensures { MatchOption result
        (EachIndex map.now (λ q. get_or map.now q 0 ≡ 3 → ⊥))
        (λ p. (p < length map.now) × (get_or map.now p 0 ≡ 3) × ((q : ℕ) → q < p → get_or map.now q 0 ≡ 3 → ⊥)) }
{
    map.iter().position(|mark| *mark == BLAMED)
}

// Says which place is blamed, if one is.
fn print_blamed<P: Print>(out: &P, map: &[u8]) -> std::io::Result<()> {
    if let Some(p) = blamed(map) {
        text::print_count(out, b"packets contradicted: place ", p as u64, b" blamed")?;
        Print::write_all(out, b", and restored from the others\n")?;
    }
    Ok(())
}

fn print_counts<P: Print>(out: &P, repaired: Repaired) -> std::io::Result<()> {
    text::print_restored(out, repaired.restored, repaired.lost, b"")?;
    text::print_count(out, b" additions ", u64::from(repaired.additions), b"\n")
}

// Says that packets contradict, and which check fails at which byte.
fn say_contradict<P: Print>(err: &P, fault: Fault) -> std::io::Result<()> {
    Print::write_all(err, b"refused 8: ")?;
    text::print_fault(err, u64::from(fault.check), u64::from(fault.byte))
}

// Says the refusal. Packets that contradict have left zeros at the lost places.
fn refuse<R: Runtime, P: Print>(
    rt: &R,
    err: &P,
    refusal: Refusal,
    block: &[u8],
) -> std::io::Result<()> {
    match refusal {
        Refusal::Contradiction(fault) => {
            let said = say_contradict(err, fault);
            text::write_argument(rt, err, 2, block)?;
            said
        }
        _ => text::say_refused(err, refusal.number()),
    }
}

fn repair_block<R: Runtime, P: Print>(
    rt: &R,
    err: &P,
    table: &[u16],
    block: &mut [u8],
    map: &mut [u8],
) -> std::io::Result<()> {
    let repaired = match repair::repair(table, block, map) {
        Ok(repaired) => repaired,
        Err(refusal) => return refuse(rt, err, refusal, block),
    };
    if text::write_argument(rt, err, 2, block)? && text::write_argument(rt, err, 3, map)? {
        print_blamed(rt, map)?;
        print_counts(rt, repaired)?;
    }
    Ok(())
}

fn repair_files<R: Runtime, P: Print>(rt: &R, err: &P, table: &[u16]) -> std::io::Result<()> {
    let mut block = [0u8; MOST_BLOCK];
    let mut map = [0u8; table::MOST_PLACES];
    let Some(bytes) = text::read_argument(rt, err, 2, &mut block)? else {
        return Ok(());
    };
    let Some(places) = text::read_argument(rt, err, 3, &mut map)? else {
        return Ok(());
    };
    repair_block(rt, err, table, &mut block[..bytes], &mut map[..places])
}

fn main(rt: HostRuntime) -> std::io::Result<()> {
    if !text::has_argument(&rt, 3) || text::has_argument(&rt, 4) {
        Print::write_all(&rt.stderr(), b"usage: repair_file TABLE BLOCK MAP\n")?;
        return Ok(());
    }
    let mut words = [0u16; table_file::MOST_WORDS];
    let Some(n) = text::read_table(&rt, &rt.stderr(), 1, &mut words)? else {
        return Ok(());
    };
    repair_files(&rt, &rt.stderr(), &words[..n])
}
