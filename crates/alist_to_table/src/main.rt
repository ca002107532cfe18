// alist_to_table TEXT SIZE TABLE: reads alist text, and writes its table, with packets of SIZE bytes.
#![tactic(auto)]

ghost use Rattle.std.specs.Prelude.{true, [], ◌∷◌, ◌≡◌};
ghost use Rattle.lists.specs.Lists.{has};
ghost use Rattle.refusals.specs.Refusals.{number_of};

use refusals::Refusal;
use std::io::Print;
use std::rt::Runtime;

// the most bytes of a text
const MOST_TEXT: usize = 4194304;

// Says on standard error why no table is made.
fn refuse<P: Print>(err: &P, refusal: Refusal) -> std::io::Result<()>
    requires { has (number_of refusal) (12 ∷ 13 ∷ 2 ∷ 3 ∷ []) ≡ true }
{
    match refusal {
        Refusal::AlistText => {
            Print::write_all(
                err,
                b"refused 12: not alist text: anything but numbers of at most six digits, too few or too many of them, ",
            )?;
            Print::write_all(
                err,
                b"a wrong greatest weight, an entry outside its range or repeated, or padding other than 0\n",
            )
        }
        Refusal::AlistLists => {
            Print::write_all(err, b"refused 13: column and row lists disagree\n")
        }
        Refusal::Limits => Print::write_all(
            err,
            b"refused 2: columns or SIZE outside 1 to 1,024, or more than 512 rows\n",
        ),
        // 3, by what is asked for
        _ => Print::write_all(
            err,
            b"refused 3: a row of more than 64 entries, or more than 6,144 in all\n",
        ),
    }
}

// Makes the table of a text, and writes it.
fn make_file<R: Runtime, P: Print>(rt: &R, err: &P, text: &[u8], s: usize) -> std::io::Result<()> {
    let mut table = [0u16; table::MOST_WORDS];
    match alist_read::read_alist(text, s, &mut table) {
        Ok(length) => made_table::write_table(rt, err, 3, &table[..length as usize]),
        Err(refusal) => refuse(err, refusal),
    }
}

// Reads the text to a buffer, likewise.
fn by_buffer<R: Runtime, P: Print>(
    rt: &R,
    err: &P,
    file: &mut [u8],
    s: usize,
) -> std::io::Result<()> {
    let Some(n) = text::read_argument(rt, err, 1, file)? else {
        return Ok(());
    };
    make_file(rt, err, &file[..n], s)
}

// The same with a buffer of its own.
fn by_file<R: Runtime, P: Print>(rt: &R, err: &P, s: usize) -> std::io::Result<()> {
    let mut file = [0u8; MOST_TEXT];
    by_buffer(rt, err, &mut file, s)
}

fn main(rt: HostRuntime) -> std::io::Result<()> {
    if !text::has_argument(&rt, 3) || text::has_argument(&rt, 4) {
        Print::write_all(&rt.stderr(), b"usage: alist_to_table TEXT SIZE TABLE\n")?;
        return Ok(());
    }
    let Some(s) = text::number_argument(&rt, &rt.stderr(), 2, b"SIZE")? else {
        return Ok(());
    };
    by_file(&rt, &rt.stderr(), s)
}
