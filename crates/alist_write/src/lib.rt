// A table written as alist text (document 02, C-15), from rows of bits: one for each place and one for each check.
#![tactic(auto)]

ghost use Rattle.std.specs.Prelude.{◌≡◌, map, ◌*◌, ◌≤◌, length};
ghost use Rattle.bits.specs.Row.{rows_in};
ghost use Rattle.making.specs.Making.{make_answer_of};
ghost use Rattle.alist.specs.Alist.{greatest};
ghost use Rattle.alist.specs.AlistText.{alist_write_answer, alist_write_text_after};
ghost use Rattle.alist_write.specs.Rows.{bits_text, Answered};

use alist_bits::load;
use alist_lines::put_text;
use refusals::Refusal;
use table::{MOST_CHECKS, MOST_PLACES, Table};

// the words of the rows of bits, 16 a row
const COLUMN_WORDS: usize = MOST_PLACES * 16;

const ROW_WORDS: usize = MOST_CHECKS * 16;

// the greatest weight of the first count rows
fn heaviest(w: &[u64], count: usize) -> usize
    requires { count * 16 ≤ length w.now }
    ensures { (result ≡ greatest (map length (rows_in w.now count)))
        × (result ≤ 1024) }
{
    let mut most: usize = 0;
    for c in 0..count {
        most = most.max(bits::ones_of(w, c));
    }
    most
}

// ---- the call

// the text, if the buffer has room for it: first it is measured and nothing stored
fn write_bits(
    text: &mut [u8],
    columns: &[u64],
    n: usize,
    rows: &[u64],
    m: usize,
) -> Result<u32, Refusal>
    requires { (n ≤ 1024)
        × (n * 16 ≤ length columns.now)
        × (m ≤ 512)
        × (m * 16 ≤ length rows.now) }
    ensures { Answered text.old (bits_text columns.now n rows.now m) (make_answer_of result) text.new }
{
    let a = heaviest(columns, n);
    let b = heaviest(rows, m);
    let length = put_text(text, 0, columns, n, a, rows, m, b);
    if text.len() < length {
        return Err(Refusal::Buffer);
    }
    put_text(text, text.len(), columns, n, a, rows, m, b);
    Ok(length as u32)
}

// the text of an accepted table
fn write(table: &Table, text: &mut [u8]) -> Result<u32, Refusal>
    ensures answer { make_answer_of result ≡ alist_write_answer table.now.words.now text.old }
    ensures text { text.new ≡ alist_write_text_after table.now.words.now text.old }
{
    let mut columns = [0u64; COLUMN_WORDS];
    let mut rows = [0u64; ROW_WORDS];
    load(table, &mut columns, &mut rows);
    write_bits(text, &columns, table.places, &rows, table.checks)
}

// Writes a table as alist text.
pub fn write_alist(t: &[u16], text: &mut [u8]) -> Result<u32, Refusal>
    ensures answer { make_answer_of result ≡ alist_write_answer t.now text.old }
    ensures text { text.new ≡ alist_write_text_after t.now text.old }
{
    let table = Table::new(t)?;
    write(&table, text)
}
