// encode_file TABLE SOURCE BLOCK [SIZE]: writes the block whose information is the source, padded with
// zeros, in packets of SIZE bytes; of the table's size where none is given.
#![tactic(auto)]

ghost use Rattle.std.specs.Prelude.{◌≤◌, length};

use plan::Plan;
use std::io::Print;
use std::rt::Runtime;
use table::MOST_BYTES;

// the most bytes of a block
const MOST_BLOCK: usize = 32768;

fn print_additions<P: Print>(out: &P, additions: u32) -> std::io::Result<()> {
    text::print_count(out, b"additions ", u64::from(additions), b"\n")
}

// Reads the source, encodes it and writes the block.
fn encode_source<R: Runtime, P: Print>(
    rt: &R,
    err: &P,
    plan: &[u32],
    s: usize,
    information: &mut [u8],
    block: &mut [u8],
    scratch: &mut [u8],
) -> std::io::Result<()> {
    let Some(_) = text::read_argument(rt, err, 2, information)? else {
        return Ok(());
    };
    match encoder::encode(plan, s, information, block, scratch, usize::MAX) {
        Ok(additions) => {
            if text::write_argument(rt, err, 3, block)? {
                print_additions(rt, additions)?;
            }
            Ok(())
        }
        Err(refusal) => text::say_refused(err, refusal.number()),
    }
}

// Encodes with part bytes of information, the whole block's, and spare ones of scratch.
fn encode_within<R: Runtime, P: Print>(
    rt: &R,
    err: &P,
    plan: &[u32],
    s: usize,
    part: usize,
    whole: usize,
    spare: usize,
) -> std::io::Result<()>
    requires { (part ≤ 32768)
        × (whole ≤ 32768)
        × (spare ≤ 32768) }
{
    let mut information = [0u8; MOST_BLOCK];
    let mut block = [0u8; MOST_BLOCK];
    let mut scratch = [0u8; MOST_BLOCK];
    encode_source(
        rt,
        err,
        plan,
        s,
        &mut information[..part],
        &mut block[..whole],
        &mut scratch[..spare],
    )
}

// Encodes in packets of s bytes.
fn encode_by<R: Runtime, P: Print>(rt: &R, err: &P, plan: &Plan, s: usize) -> std::io::Result<()> {
    if table::outside(MOST_BYTES, s) {
        Print::write_all(err, b"refused 2: a packet has 1 to 1024 bytes\n")?;
        return Ok(());
    }
    let whole = plan.places() * s;
    if whole > MOST_BLOCK {
        Print::write_all(err, b"the block has more than 32768 bytes\n")?;
        return Ok(());
    }
    encode_within(
        rt,
        err,
        plan.words,
        s,
        plan.info_count() * s,
        whole,
        plan.gap() * s,
    )
}

// The size that is given, or the table's.
fn size_for<R: Runtime, P: Print>(rt: &R, err: &P, table: &[u16]) -> std::io::Result<Option<usize>>
    requires { 5 ≤ length table.now }
{
    if text::has_argument(rt, 4) && !text::has_argument(rt, 5) {
        return text::number_argument(rt, err, 4, b"SIZE");
    }
    Ok(Some(usize::from(table[2])))
}

fn encode_file<R: Runtime, P: Print>(rt: &R, err: &P, table: &[u16]) -> std::io::Result<()> {
    let mut plan = [0u32; planner::LEAST_PLAN];
    let planned = match own_plan::plan_of(table, &mut plan) {
        Ok(planned) => planned,
        Err(refusal) => return text::say_refused(err, refusal.number()),
    };
    let Some(s) = size_for(rt, err, table)? else {
        return Ok(());
    };
    let plan = Plan {
        words: &plan[..planned.length as usize],
    };
    encode_by(rt, err, &plan, s)
}

fn main(rt: HostRuntime) -> std::io::Result<()> {
    if !text::has_argument(&rt, 3) || text::has_argument(&rt, 5) {
        Print::write_all(
            &rt.stderr(),
            b"usage: encode_file TABLE SOURCE BLOCK [SIZE]\n",
        )?;
        return Ok(());
    }
    let mut words = [0u16; table_file::MOST_WORDS];
    let Some(n) = text::read_table(&rt, &rt.stderr(), 1, &mut words)? else {
        return Ok(());
    };
    encode_file(&rt, &rt.stderr(), &words[..n])
}
