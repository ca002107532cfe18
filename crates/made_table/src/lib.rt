// A table that was made, written as a file: for the programs.
#![tactic(auto)]

ghost use Rattle.std.specs.Prelude.{◌≡◌, ◌*◌, length};
ghost use Rattle.table.specs.Table.{refusal};

use std::io::Print;
use std::rt::Runtime;

// Prints how many numbers, checks and ones a table has.
fn print_counts<P: Print>(
    out: &P,
    numbers: usize,
    checks: usize,
    ones: usize,
) -> std::io::Result<()> {
    text::print_count(out, b"table of ", numbers as u64, b" numbers, ")?;
    text::print_count(out, b"", checks as u64, b" checks, ")?;
    text::print_count(out, b"", ones as u64, b" ones\n")
}

// The same of an accepted table.
fn print_table<P: Print>(out: &P, table: &[u16]) -> std::io::Result<()>
    requires { refusal table.now ≡ 0 }
{
    let checks = usize::from(table[3]);
    let ones = usize::from(table[4 + checks]);
    print_counts(out, table.len(), checks, ones)
}

// Writes the file that an argument names, by way of its bytes, and says so.
fn write_bytes<R: Runtime, P: Print>(
    rt: &R,
    err: &P,
    number: usize,
    table: &[u16],
    file: &mut [u8],
) -> std::io::Result<()>
    requires accepted { refusal table.now ≡ 0 }
    requires room { length file.old ≡ 2 * length table.now }
{
    table_file::bytes_of(table, file);
    if text::write_argument(rt, err, number, file)? {
        print_table(rt, table)?;
    }
    Ok(())
}

// Writes an accepted table to the file that an argument names, and says so. The words alone: a `Table` would have to be looked over again.
pub fn write_table<R: Runtime, P: Print>(
    rt: &R,
    err: &P,
    number: usize,
    table: &[u16],
) -> std::io::Result<()>
    requires { refusal table.now ≡ 0 }
{
    let mut file = [0u8; table_file::MOST_BYTES];
    let length = 2 * table.len();
    write_bytes(rt, err, number, table, &mut file[..length])
}
