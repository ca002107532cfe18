// table_to_alist TABLE TEXT: writes a table as alist text.
#![tactic(auto)]

ghost use Rattle.std.specs.Prelude.{List, ℕ, ◌≡◌, ◌≤◌, length};
ghost use Rattle.alist.specs.AlistLength.{most_alist};
ghost use Rattle.alist.specs.AlistText.{alist_text};

use std::io::Print;
use std::rt::Runtime;

// as many bytes as the longest text of any table
const MOST_TEXT: usize = 1200000;

// Writes the file of a table's text, and says so.
fn write_bytes<R: Runtime, P: Print>(rt: &R, err: &P, bytes: &[u8]) -> std::io::Result<()>
    requires { (t : List ℕ) × (bytes.now ≡ alist_text t) }
{
    if text::write_argument(rt, err, 2, bytes)? {
        text::print_count(rt, b"text of ", bytes.len() as u64, b" bytes\n")?;
    }
    Ok(())
}

// Writes the text's file by way of a buffer, and says so.
fn write_text<R: Runtime, P: Print>(
    rt: &R,
    err: &P,
    table: &[u16],
    file: &mut [u8],
) -> std::io::Result<()>
    requires { most_alist ≤ length file.old }
{
    match alist_write::write_alist(table, file) {
        Ok(length) => write_bytes(rt, err, &file[..length as usize]),
        Err(refusal) => text::say_table_refused(err, refusal.number()),
    }
}

// The same with a buffer of its own.
fn write_file<R: Runtime, P: Print>(rt: &R, err: &P, table: &[u16]) -> std::io::Result<()> {
    let mut file = [0u8; MOST_TEXT];
    write_text(rt, err, table, &mut file)
}

fn main(rt: HostRuntime) -> std::io::Result<()> {
    if !text::has_argument(&rt, 2) || text::has_argument(&rt, 3) {
        Print::write_all(&rt.stderr(), b"usage: table_to_alist TABLE TEXT\n")?;
        return Ok(());
    }
    let mut words = [0u16; table_file::MOST_WORDS];
    let Some(n) = text::read_table(&rt, &rt.stderr(), 1, &mut words)? else {
        return Ok(());
    };
    write_file(&rt, &rt.stderr(), &words[..n])
}
