// staircase_file SOURCES PACKETS ONES SEED SIZE TABLE: writes the table of a staircase.
#![tactic(auto)]

use std::io::Print;
use std::rt::Runtime;

// Makes the table and writes it.
fn make_file<R: Runtime, P: Print>(
    rt: &R,
    err: &P,
    k: usize,
    n: usize,
    ones: usize,
    seed: usize,
    s: usize,
) -> std::io::Result<()> {
    let mut table = [0u16; table::MOST_WORDS];
    match staircase::make(k, n, ones, seed, s, &mut table) {
        Ok(length) => made_table::write_table(rt, err, 6, &table[..length as usize]),
        Err(refusal) => text::say_refused(err, refusal.number()),
    }
}

// Reads the numbers and makes the file.
fn by_arguments<R: Runtime, P: Print>(rt: &R, err: &P) -> std::io::Result<()> {
    let Some(k) = text::number_argument(rt, err, 1, b"SOURCES")? else {
        return Ok(());
    };
    let Some(n) = text::number_argument(rt, err, 2, b"PACKETS")? else {
        return Ok(());
    };
    let Some(ones) = text::number_argument(rt, err, 3, b"ONES")? else {
        return Ok(());
    };
    let Some(seed) = text::number_argument(rt, err, 4, b"SEED")? else {
        return Ok(());
    };
    let Some(s) = text::number_argument(rt, err, 5, b"SIZE")? else {
        return Ok(());
    };
    make_file(rt, err, k, n, ones, seed, s)
}

fn main(rt: HostRuntime) -> std::io::Result<()> {
    if !text::has_argument(&rt, 6) || text::has_argument(&rt, 7) {
        Print::write_all(
            &rt.stderr(),
            b"usage: staircase_file SOURCES PACKETS ONES SEED SIZE TABLE\n",
        )?;
        return Ok(());
    }
    by_arguments(&rt, &rt.stderr())
}
