// full_repair_file TABLE BLOCK MAP: restores every lost packet that the received ones decide, and
// writes block and map back. Where no codeword agrees with them, the block goes back too, zero at
// its lost places.
#![tactic(auto)]

use refusals::Refusal;
use std::io::Print;
use std::rt::Runtime;

// the most bytes of a block
const MOST_BLOCK: usize = 32768;

// Says the refusal. Packets with which no codeword agrees have left zeros at the lost places.
fn refuse<R: Runtime, P: Print>(
    rt: &R,
    err: &P,
    refusal: Refusal,
    block: &[u8],
) -> std::io::Result<()> {
    match refusal {
        Refusal::NoCodeword => {
            let said = Print::write_all(
                err,
                b"refused 8: no codeword agrees with the received packets\n",
            );
            text::write_argument(rt, err, 2, block)?;
            said
        }
        _ => text::say_refused(err, refusal.number()),
    }
}

fn repair_block<R: Runtime, P: Print>(
    rt: &R,
    err: &P,
    table: &[u16],
    block: &mut [u8],
    map: &mut [u8],
) -> std::io::Result<()> {
    let mut work = [0u64; table::WORK_WORDS];
    let repaired = match full::full_repair(table, block, map, &mut work) {
        Ok(repaired) => repaired,
        Err(refusal) => return refuse(rt, err, refusal, block),
    };
    if text::write_argument(rt, err, 2, block)? && text::write_argument(rt, err, 3, map)? {
        text::print_restored(rt, repaired.restored, repaired.lost, b"\n")?;
    }
    Ok(())
}

fn repair_files<R: Runtime, P: Print>(rt: &R, err: &P, table: &[u16]) -> std::io::Result<()> {
    let mut block = [0u8; MOST_BLOCK];
    let mut map = [0u8; table::MOST_PLACES];
    let Some(bytes) = text::read_argument(rt, err, 2, &mut block)? else {
        return Ok(());
    };
    let Some(places) = text::read_argument(rt, err, 3, &mut map)? else {
        return Ok(());
    };
    repair_block(rt, err, table, &mut block[..bytes], &mut map[..places])
}

fn main(rt: HostRuntime) -> std::io::Result<()> {
    if !text::has_argument(&rt, 3) || text::has_argument(&rt, 4) {
        Print::write_all(&rt.stderr(), b"usage: full_repair_file TABLE BLOCK MAP\n")?;
        return Ok(());
    }
    let mut words = [0u16; table_file::MOST_WORDS];
    let Some(n) = text::read_table(&rt, &rt.stderr(), 1, &mut words)? else {
        return Ok(());
    };
    repair_files(&rt, &rt.stderr(), &words[..n])
}
