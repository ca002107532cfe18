// Lines of text, and the numbers and files that a program's arguments name.
#![tactic(auto)]

ghost use Rattle.std.specs.Prelude.{true, [], ◌∷◌, ◌++◌, ◌≡◌, ◌+◌, ◌≤◌, length, IfOk};
ghost use Rattle.lists.specs.Lists.{has};
ghost use Rattle.numerals.specs.Numerals.{decimal};
ghost use Rattle.text.specs.Lines.{Appended};
ghost use Rattle.text.specs.Files.{ReadInto};

use std::alloc::Alloc;
use std::env::{Env, FillError};
use std::fs;
use std::fs::Files;
use std::io::{Error, Print, Read, Write};

// ---- lines

// Writes a word into the line from at on; where it ends.
pub fn put(line: &mut [u8], at: usize, word: &[u8]) -> usize
    requires { at + length word.now ≤ length line.old }
    ensures { Appended line.old at word.now line.new result }
{
    let end = at + word.len();
    line[at..end].copy_from_slice(word);
    end
}

// A number in decimal, likewise.
pub fn put_number(line: &mut [u8], at: usize, x: u64) -> usize
    requires { at + length (decimal x) ≤ length line.old }
    ensures { Appended line.old at (decimal x) line.new result }
{
    let mut digits = [0u8; 20];
    let k = io::decimal(x, &mut digits);
    put(line, at, &digits[..k])
}

// A word and a number, likewise.
pub fn put_count(line: &mut [u8], at: usize, word: &[u8], x: u64) -> usize
    requires { at + length (word.now ++ decimal x) ≤ length line.old }
    ensures { Appended line.old at (word.now ++ decimal x) line.new result }
{
    let at = put(line, at, word);
    put_number(line, at, x)
}

// Prints a word, a number and what ends the line.
pub fn print_count<P: Print>(to: &P, word: &[u8], x: u64, end: &[u8]) -> std::io::Result<()>
    requires { length word.now + length end.now ≤ 44 }
{
    let mut line = [0u8; 64];
    let at = put_count(&mut line, 0, word, x);
    let at = put(&mut line, at, end);
    Print::write_all(to, &line[..at])
}

// Prints how many places are restored and how many are still lost, and what ends or goes on.
pub fn print_restored<P: Print>(to: &P, restored: u32, lost: u32, end: &[u8]) -> std::io::Result<()>
    requires { length end.now ≤ 38 }
{
    print_count(to, b"restored ", u64::from(restored), b"")?;
    print_count(to, b" lost ", u64::from(lost), end)
}

// Says on standard error that a call refused, and its number.
pub fn say_refused<P: Print>(err: &P, number: u32) -> std::io::Result<()> {
    print_count(err, b"refused ", u64::from(number), b"\n")
}

// Says on standard error why a table is refused.
pub fn say_table_refused<P: Print>(err: &P, refusal: u32) -> std::io::Result<()>
    requires { has refusal (1 ∷ 2 ∷ 3 ∷ 4 ∷ []) ≡ true }
{
    match refusal {
        1 => Print::write_all(err, b"refused 1: a table has at least 5 numbers\n"),
        2 => Print::write_all(
            err,
            b"refused 2: the first number isn't 2, or places, packet size or checks are beyond their limits\n",
        ),
        3 => Print::write_all(
            err,
            b"refused 3: a weight over 64, more than 6,144 ones, or weights, ones and length that don't fit\n",
        ),
        // 4, by what is asked for
        _ => Print::write_all(
            err,
            b"refused 4: a place that is no place of the block, or places of a check that don't ascend\n",
        ),
    }
}

// Says which check fails, and at which byte of its sum.
pub fn print_fault<P: Print>(to: &P, check: u64, byte: u64) -> std::io::Result<()> {
    print_count(to, b"check ", check, b" fails")?;
    print_count(to, b" at byte ", byte, b"\n")
}

// Says on standard error that an argument's file has too many bytes.
fn say_overlong<P: Print>(err: &P, number: usize, most: usize) -> std::io::Result<()> {
    print_count(err, b"argument ", number as u64, b": ")?;
    print_count(err, b"more than ", most as u64, b" bytes\n")
}

// Says on standard error what failed, and the system's words for why.
fn say_failed<R: Alloc, P: Print>(rt: &R, err: &P, what: &[u8], why: Error) -> std::io::Result<()> {
    Print::write_all(err, what)?;
    Print::write_all(err, b": ")?;
    let words = format!(in rt.alloc(); "{why}")?;
    match words.as_str().split_once(" (os error ") {
        Some((text, _)) => Print::write_all(err, text.as_bytes())?,
        None => Print::write_all(err, words.as_str().as_bytes())?,
    }
    Print::write_all(err, b"\n")
}

// ---- numbers

// Says on standard error that an argument isn't a number.
fn say_no_number<P: Print>(err: &P, name: &[u8]) -> std::io::Result<()> {
    Print::write_all(err, name)?;
    Print::write_all(err, b" is not a decimal number below 2^64\n")
}

// The number that an argument of up to 4,096 bytes writes; none, which has been said, of any other.
pub fn number_argument<R: Env, P: Print>(
    rt: &R,
    err: &P,
    number: usize,
    name: &[u8],
) -> std::io::Result<Option<usize>> {
    let mut text = io::buffer();
    let Ok(length) = rt.arg(number, &mut text) else {
        say_no_number(err, name)?;
        return Ok(None);
    };
    let x = numerals::number_of(&text[..length]);
    if x.is_none() {
        say_no_number(err, name)?;
    }
    Ok(x)
}

// Whether there is an argument of this number; argument 0 is the program's name.
pub fn has_argument<R: Env>(rt: &R, number: usize) -> bool {
    let mut text = io::buffer();
    match rt.arg(number, &mut text) {
        Err(FillError::NotPresent) => false,
        _ => true,
    }
}

// ---- files

// One read. A failed one gives nothing, and has been said.
fn read_some<F: Read, R: Alloc, P: Print>(
    file: &mut F,
    rt: &R,
    err: &P,
    buf: &mut [u8],
) -> std::io::Result<Option<usize>>
    ensures { IfOk result (λ r. ReadInto r buf.new) }
{
    match file.read(buf) {
        Ok(n) => Ok(Some(n)),
        Err(e) => {
            say_failed(rt, err, b"read", e)?;
            Ok(None)
        }
    }
}

// Reads until the buffer is full or the file ends; nothing where a read fails, which has been said.
pub fn read_into<F: Read, R: Alloc, P: Print>(
    file: &mut F,
    rt: &R,
    err: &P,
    buf: &mut [u8],
) -> std::io::Result<Option<usize>>
    ensures { IfOk result (λ r. ReadInto r buf.new) }
{
    let mut n = 0;
    // each turn goes on behind what was read, however much that is
    while n < buf.len() {
        let Some(more) = read_some(file, rt, err, &mut buf[n..])? else {
            return Ok(None);
        };
        if more == 0 {
            return Ok(Some(n));
        }
        n += more;
    }
    Ok(Some(n))
}

// Reads a file whole. One that fails or has more bytes than the buffer gives nothing, and has been
// said.
fn read_whole<F: Read, R: Alloc, P: Print>(
    file: &mut F,
    rt: &R,
    err: &P,
    number: usize,
    buf: &mut [u8],
) -> std::io::Result<Option<usize>>
    ensures { IfOk result (λ r. ReadInto r buf.new) }
{
    let Some(n) = read_into(file, rt, err, buf)? else {
        return Ok(None);
    };
    if n < buf.len() {
        return Ok(Some(n));
    }
    let mut next = [0u8; 1];
    let Some(more) = read_into(file, rt, err, &mut next)? else {
        return Ok(None);
    };
    if more != 0 {
        say_overlong(err, number, buf.len())?;
        return Ok(None);
    }
    Ok(Some(n))
}

// Reads the file that an argument names, likewise.
pub fn read_argument<R: Env + Files + Alloc, P: Print>(
    rt: &R,
    err: &P,
    number: usize,
    buf: &mut [u8],
) -> std::io::Result<Option<usize>>
    ensures { IfOk result (λ r. ReadInto r buf.new) }
{
    let Some(mut file) = open_argument(rt, err, number)? else {
        return Ok(None);
    };
    read_whole(&mut file, rt, err, number, buf)
}

// Reads as much as there is room for of the file that an argument names.
fn read_start<R: Env + Files + Alloc, P: Print>(
    rt: &R,
    err: &P,
    number: usize,
    buf: &mut [u8],
) -> std::io::Result<Option<usize>>
    ensures { IfOk result (λ r. ReadInto r buf.new) }
{
    let Some(mut file) = open_argument(rt, err, number)? else {
        return Ok(None);
    };
    read_into(&mut file, rt, err, buf)
}

// Says on standard error that a file isn't a table's.
fn say_unfit<P: Print>(err: &P) -> std::io::Result<()> {
    Print::write_all(
        err,
        b"refused 3: a table's file has an even number of bytes, at most 13,322\n",
    )
}

// Reads the words of the table's file that an argument names. A file that can't be read, or is
// refused with 3, gives nothing, and has been said.
pub fn read_table<R: Env + Files + Alloc, P: Print>(
    rt: &R,
    err: &P,
    number: usize,
    words: &mut [u16],
) -> std::io::Result<Option<usize>>
    requires { 6661 ≤ length words.old }
    ensures { IfOk result (λ r. ReadInto r words.new) }
{
    // one byte more shows that there are too many
    let mut file = [0u8; table_file::MOST_BYTES + 1];
    let Some(n) = read_start(rt, err, number, &mut file)? else {
        return Ok(None);
    };
    let Some(n) = table_file::words_in(&file[..n], words) else {
        say_unfit(err)?;
        return Ok(None);
    };
    Ok(Some(n))
}

// Says on standard error why there is no argument of a number.
fn say_no_argument<P: Print>(err: &P, why: FillError) -> std::io::Result<()> {
    match why {
        FillError::NotPresent => Print::write_all(err, b"argument: Invalid argument\n"),
        FillError::TooLong => Print::write_all(err, b"argument: File name too long\n"),
    }
}

// The path that an argument names, at the start of the buffer; none, which has been said, of an argument that can't be one.
fn path_argument<'a, R: Env, P: Print>(
    rt: &R,
    err: &P,
    number: usize,
    path: &'a mut [u8],
) -> std::io::Result<Option<&'a str>> {
    let length = match rt.arg(number, path) {
        Ok(length) => length,
        Err(why) => {
            say_no_argument(err, why)?;
            return Ok(None);
        }
    };
    let bytes = &path[..length];
    match std::str::from_utf8(bytes) {
        Ok(text) => Ok(Some(text)),
        Err(_) => {
            Print::write_all(err, bytes)?;
            Print::write_all(err, b": a name that isn't UTF-8\n")?;
            Ok(None)
        }
    }
}

// Opens the file that an argument names, for reading; none, which has been said, if it can't.
fn open_argument<R: Env + Files + Alloc, P: Print>(
    rt: &R,
    err: &P,
    number: usize,
) -> std::io::Result<Option<R::File>> {
    let mut buffer = io::buffer();
    let Some(path) = path_argument(rt, err, number, &mut buffer)? else {
        return Ok(None);
    };
    match fs::open(rt, path) {
        Ok(file) => Ok(Some(file)),
        Err(why) => {
            say_failed(rt, err, path.as_bytes(), why)?;
            Ok(None)
        }
    }
}

// Writes the file that an argument names; whether it was written: if not, that has been said.
pub fn write_argument<R: Env + Files + Alloc, P: Print>(
    rt: &R,
    err: &P,
    number: usize,
    bytes: &[u8],
) -> std::io::Result<bool> {
    let mut buffer = io::buffer();
    let Some(path) = path_argument(rt, err, number, &mut buffer)? else {
        return Ok(false);
    };
    let mut file = match fs::create(rt, path) {
        Ok(file) => file,
        Err(why) => {
            say_failed(rt, err, path.as_bytes(), why)?;
            return Ok(false);
        }
    };
    match file.write_all(bytes) {
        Ok(()) => Ok(true),
        Err(why) => {
            say_failed(rt, err, path.as_bytes(), why)?;
            Ok(false)
        }
    }
}
