// reason_file TABLE BLOCK MAP PLACE: says why the place's packet is there or missing after full
// repair, and full repair's counts. MAP is the map before any repair. It writes no file.
#![tactic(auto)]

ghost use Rattle.std.specs.Prelude.{true, [], ◌∷◌, ◌≡◌};
ghost use Rattle.lists.specs.Lists.{has};
ghost use Rattle.refusals.specs.Refusals.{number_of};
ghost use Rattle.explain.specs.Kinds.{length_of};

use explain::Told;
use refusals::Refusal;
use std::io::Print;
use std::rt::Runtime;

// the most bytes of a block
const MOST_BLOCK: usize = 32768;

// Says on standard error why no reason is told.
fn refuse<P: Print>(err: &P, refusal: Refusal) -> std::io::Result<()>
    requires { has (number_of refusal) (1 ∷ 2 ∷ 3 ∷ 4 ∷ 5 ∷ 7 ∷ 14 ∷ 8 ∷ []) ≡ true }
{
    match refusal {
        Refusal::Buffer => Print::write_all(
            err,
            b"refused 5: a block or map that doesn't have the table's places and packet size\n",
        ),
        Refusal::Map => Print::write_all(
            err,
            b"refused 7: the map has a byte over 1; give the map as it was before any repair\n",
        ),
        Refusal::NoReason => Print::write_all(
            err,
            b"refused 14: the place is not below the table's number of places\n",
        ),
        Refusal::NoCodeword | Refusal::Contradiction(_) => Print::write_all(
            err,
            b"refused 8: no codeword agrees with the received packets\n",
        ),
        _ => text::say_table_refused(err, refusal.number()),
    }
}

// Prints numbers, each after a blank.
fn print_numbers<P: Print>(out: &P, list: &[u16]) -> std::io::Result<()> {
    for x in list {
        text::print_count(out, b" ", u64::from(*x), b"")?;
    }
    Ok(())
}

// Prints what the numbers count, with an s where there are several, and the numbers.
fn print_listed<P: Print>(out: &P, word: &[u8], list: &[u16]) -> std::io::Result<()> {
    Print::write_all(out, word)?;
    if list.len() != 1 {
        Print::write_all(out, b"s")?;
    }
    print_numbers(out, list)
}

// Says why the place's packet is there or missing: the checks that restore it, or the lost places
// with which it stays lost.
fn print_reason<P: Print>(out: &P, place: usize, told: Told, list: &[u16]) -> std::io::Result<()> {
    text::print_count(out, b"place ", place as u64, b"")?;
    match told {
        Told::Received => Print::write_all(out, b" was received\n"),
        Told::Restored(_) => {
            print_listed(out, b" is restored by check", list)?;
            Print::write_all(out, b"\n")
        }
        Told::Lost(_) => {
            print_listed(out, b" stays lost: every check meets the lost place", list)?;
            Print::write_all(out, b" an even number of times\n")
        }
    }
}

// How many numbers are listed.
fn list_length(told: Told) -> usize
    ensures { result ≡ length_of told }
{
    match told {
        Told::Received => 0,
        Told::Restored(length) => length as usize,
        Told::Lost(length) => length as usize,
    }
}

fn explain_place<P: Print, Q: Print>(
    out: &P,
    err: &Q,
    table: &[u16],
    block: &mut [u8],
    map: &mut [u8],
    place: usize,
) -> std::io::Result<()> {
    let mut work = [0u64; table::WORK_WORDS];
    let mut reason = [0u16; why::REASON_NUMBERS];
    let answer = match why::why(table, block, map, &mut work, place, &mut reason) {
        Ok(answer) => answer,
        Err(refusal) => return refuse(err, refusal),
    };
    let length = list_length(answer.told);
    print_reason(out, place, answer.told, &reason[..length])?;
    text::print_restored(out, answer.restored, answer.lost, b"\n")
}

fn explain_files<R: Runtime, P: Print>(
    rt: &R,
    err: &P,
    table: &[u16],
    place: usize,
) -> std::io::Result<()> {
    let mut block = [0u8; MOST_BLOCK];
    let mut map = [0u8; table::MOST_PLACES];
    let Some(bytes) = text::read_argument(rt, err, 2, &mut block)? else {
        return Ok(());
    };
    let Some(places) = text::read_argument(rt, err, 3, &mut map)? else {
        return Ok(());
    };
    explain_place(
        rt,
        err,
        table,
        &mut block[..bytes],
        &mut map[..places],
        place,
    )
}

fn by_table<R: Runtime, P: Print>(rt: &R, err: &P, place: usize) -> std::io::Result<()> {
    let mut words = [0u16; table_file::MOST_WORDS];
    let Some(n) = text::read_table(rt, err, 1, &mut words)? else {
        return Ok(());
    };
    explain_files(rt, err, &words[..n], place)
}

fn main(rt: HostRuntime) -> std::io::Result<()> {
    if !text::has_argument(&rt, 4) || text::has_argument(&rt, 5) {
        Print::write_all(&rt.stderr(), b"usage: reason_file TABLE BLOCK MAP PLACE\n")?;
        return Ok(());
    }
    let Some(place) = text::number_argument(&rt, &rt.stderr(), 4, b"PLACE")? else {
        return Ok(());
    };
    by_table(&rt, &rt.stderr(), place)
}
