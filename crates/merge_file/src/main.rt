// merge_file TABLE BLOCK1 MAP1 BLOCK2 MAP2 BLOCK MAP: merges what two receivers have of one block,
// restores what it can of the packets that neither heard or on which they differ, and writes block
// and map. Where the packets contradict, both are written as merged, zero at the lost places.
#![tactic(auto)]

ghost use Rattle.std.specs.Prelude.{true, [], ◌∷◌, ◌≡◌, ◌≤◌, length};
ghost use Rattle.lists.specs.Lists.{has};
ghost use Rattle.refusals.specs.Refusals.{number_of};

use merge::Merged;
use refusals::{Fault, Refusal};
use std::io::Print;
use std::rt::Runtime;

// the most bytes of a block
const MOST_BLOCK: usize = 32768;

// Prints how many places are of each kind, and the repair's counts.
fn print_counts<P: Print>(out: &P, merged: Merged) -> std::io::Result<()> {
    text::print_count(out, b"agreed ", u64::from(merged.agreed), b"")?;
    text::print_count(out, b" single ", u64::from(merged.single), b"")?;
    text::print_count(out, b" silent ", u64::from(merged.silent), b"")?;
    text::print_count(out, b" clash ", u64::from(merged.clash), b"\n")?;
    text::print_restored(out, merged.repaired.restored, merged.repaired.lost, b"")?;
    text::print_count(
        out,
        b" additions ",
        u64::from(merged.repaired.additions),
        b"\n",
    )
}

// Says on standard error why nothing is merged.
fn refuse<P: Print>(err: &P, refusal: Refusal) -> std::io::Result<()>
    requires { has (number_of refusal) (1 ∷ 2 ∷ 3 ∷ 4 ∷ 5 ∷ 7 ∷ []) ≡ true }
{
    match refusal {
        Refusal::Buffer => Print::write_all(
            err,
            b"refused 5: a block or map that doesn't have the table's places and packet size\n",
        ),
        Refusal::Map => {
            Print::write_all(err, b"refused 7: a receiver's map has a byte over 1\n")
        }
        _ => text::say_table_refused(err, refusal.number()),
    }
}

// Writes block and map; whether they were written.
fn write_files<R: Runtime, P: Print>(
    rt: &R,
    err: &P,
    block: &[u8],
    map: &[u8],
) -> std::io::Result<bool> {
    if text::write_argument(rt, err, 6, block)? {
        return text::write_argument(rt, err, 7, map);
    }
    Ok(false)
}

// Says that packets contradict, and which check fails at which byte.
fn say_contradict<P: Print>(err: &P, fault: Fault) -> std::io::Result<()> {
    Print::write_all(err, b"refused 8: ")?;
    text::print_fault(err, u64::from(fault.check), u64::from(fault.byte))
}

// Says that packets contradict, and writes what is merged.
fn write_contradicted<R: Runtime, P: Print>(
    rt: &R,
    err: &P,
    fault: Fault,
    block: &[u8],
    map: &[u8],
) -> std::io::Result<()> {
    let said = say_contradict(err, fault);
    write_files(rt, err, block, map)?;
    said
}

fn merge_into<R: Runtime, P: Print>(
    rt: &R,
    err: &P,
    table: &[u16],
    block1: &[u8],
    map1: &[u8],
    block2: &[u8],
    map2: &[u8],
    block: &mut [u8],
    map: &mut [u8],
) -> std::io::Result<()> {
    match merge::merge(table, block1, map1, block2, map2, block, map) {
        Ok(merged) => {
            if write_files(rt, err, block, map)? {
                print_counts(rt, merged)?;
            }
            Ok(())
        }
        Err(refusal) => match refusal {
            Refusal::Contradiction(fault) => write_contradicted(rt, err, fault, block, map),
            // merging never answers this one (`told`, merge/specs/Merge)
            Refusal::NoCodeword => {
                let fault = Fault { check: 0, byte: 0 };
                write_contradicted(rt, err, fault, block, map)
            }
            _ => refuse(err, refusal),
        },
    }
}

// The third block and map have the first receiver's lengths.
fn merge_held<R: Runtime, P: Print>(
    rt: &R,
    err: &P,
    table: &[u16],
    block1: &[u8],
    map1: &[u8],
    block2: &[u8],
    map2: &[u8],
) -> std::io::Result<()>
    requires { (length block1.now ≤ 32768)
        × (length map1.now ≤ 1024) }
{
    let mut block = [0u8; MOST_BLOCK];
    let mut map = [0u8; table::MOST_PLACES];
    let bytes = block1.len();
    let places = map1.len();
    merge_into(
        rt,
        err,
        table,
        block1,
        map1,
        block2,
        map2,
        &mut block[..bytes],
        &mut map[..places],
    )
}

// The second receiver's files.
fn merge_second<R: Runtime, P: Print>(
    rt: &R,
    err: &P,
    table: &[u16],
    block1: &[u8],
    map1: &[u8],
) -> std::io::Result<()>
    requires { (length block1.now ≤ 32768)
        × (length map1.now ≤ 1024) }
{
    let mut block = [0u8; MOST_BLOCK];
    let mut map = [0u8; table::MOST_PLACES];
    let Some(bytes) = text::read_argument(rt, err, 4, &mut block)? else {
        return Ok(());
    };
    let Some(places) = text::read_argument(rt, err, 5, &mut map)? else {
        return Ok(());
    };
    merge_held(
        rt,
        err,
        table,
        block1,
        map1,
        &block[..bytes],
        &map[..places],
    )
}

// The first receiver's files.
fn merge_first<R: Runtime, P: Print>(rt: &R, err: &P, table: &[u16]) -> std::io::Result<()> {
    let mut block = [0u8; MOST_BLOCK];
    let mut map = [0u8; table::MOST_PLACES];
    let Some(bytes) = text::read_argument(rt, err, 2, &mut block)? else {
        return Ok(());
    };
    let Some(places) = text::read_argument(rt, err, 3, &mut map)? else {
        return Ok(());
    };
    merge_second(rt, err, table, &block[..bytes], &map[..places])
}

fn main(rt: HostRuntime) -> std::io::Result<()> {
    if !text::has_argument(&rt, 7) || text::has_argument(&rt, 8) {
        Print::write_all(
            &rt.stderr(),
            b"usage: merge_file TABLE BLOCK1 MAP1 BLOCK2 MAP2 BLOCK MAP\n",
        )?;
        return Ok(());
    }
    let mut words = [0u16; table_file::MOST_WORDS];
    let Some(n) = text::read_table(&rt, &rt.stderr(), 1, &mut words)? else {
        return Ok(());
    };
    merge_first(&rt, &rt.stderr(), &words[..n])
}
