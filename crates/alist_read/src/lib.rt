// Reading alist text (document 02, C-15).
#![tactic(auto)]

ghost use Rattle.std.specs.Prelude.{◌≡◌, false, ◌<◌, length};
ghost use Rattle.making.specs.Making.{make_answer_of};
ghost use Rattle.alist.specs.Alist.{alist_read_answer, alist_read_table_after};
ghost use Rattle.tiles.specs.Board.{Blank};
ghost use Rattle.alist_read.specs.Reading.{GoodList, GoodLists, Sound, Makes, ReadsRest};

use refusals::Refusal;
use table::{MOST_ONES, MOST_WORDS};
use tiles::{Axis, BOARD_WORDS, Lists};

// ---- 12, by weights and lists; the board is blank before and after

// where a good list ends, of weight entries and padding to width
fn good_list(
    board: &mut [u64],
    text: &[u8],
    at: usize,
    weight: usize,
    width: usize,
    most: usize,
) -> Option<usize>
    requires { length board.old ≡ 16384 }
    ensures len { length board.new ≡ length board.old }
    ensures good { GoodList text.now at weight width most board.old result board.new }
{
    if width < weight {
        return None;
    }
    if !tiles::mark(board, text, at, weight, most) {
        return None;
    }
    let padding = tiles::unmark(board, text, at, weight);
    if !walks::all_zero(text, padding, width - weight) {
        return None;
    }
    Some(walks::skip_numbers(text, padding, width - weight))
}

// some lists
fn good_lists(board: &mut [u64], text: &[u8], lists: Lists, most: usize) -> bool
    requires { length board.old ≡ 16384 }
    ensures len { length board.new ≡ length board.old }
    ensures good { GoodLists text.now lists.weights lists.entries lists.count lists.width most board.old result board.new }
{
    let mut weight = lists.weights;
    let mut next = lists.entries;
    for i in 0..lists.count {
        let spot = numbers::read(text, weight);
        let Some(end) = good_list(board, text, next, spot.value, lists.width, most) else {
            return false;
        };
        weight = spot.next;
        next = end;
    }
    true
}

// columns and rows
fn is_sound(board: &mut [u64], text: &[u8], columns: Lists, rows: Lists) -> bool
    requires { length board.old ≡ 16384 }
    ensures len { length board.new ≡ length board.old }
    ensures sound { Sound text.now columns.count rows.count columns.width rows.width
        columns.weights rows.weights columns.entries rows.entries board.old result board.new }
{
    if walks::greatest(text, columns.weights, columns.count) != columns.width {
        return false;
    }
    if walks::greatest(text, rows.weights, rows.count) != rows.width {
        return false;
    }
    if !good_lists(board, text, columns, rows.count) {
        return false;
    }
    good_lists(board, text, rows, columns.count)
}

// ---- the table

// document 01's refusals, and the table of good rows: put into the board, they are sorted
fn make(
    board: &mut [u64],
    text: &[u8],
    s: usize,
    n: usize,
    rows: Lists,
    table: &mut [u16],
) -> Result<u32, Refusal>
    requires { length board.old ≡ 16384 }
    ensures { Makes text.now s n rows.count rows.width rows.weights rows.entries board.old table.old (make_answer_of result) table.new }
{
    if table::beyond(n, s, rows.count) {
        return Err(Refusal::Limits);
    }
    tiles::flip_lists(board, text, rows, 0, n, Axis::Rows);
    let Some(ones) = making::weigh(board, rows.count) else {
        return Err(Refusal::Lengths);
    };
    if MOST_ONES < ones {
        return Err(Refusal::Lengths);
    }
    if table.len() != MOST_WORDS {
        return Err(Refusal::Buffer);
    }
    let length = making::write(table, n, s, board, rows.count, ones);
    Ok(length as u32)
}

// count numbers from at on, behind the sizes and the greatest weights
fn read_rest(
    board: &mut [u64],
    text: &[u8],
    s: usize,
    n: usize,
    m: usize,
    a: usize,
    b: usize,
    at: usize,
    count: usize,
    table: &mut [u16],
) -> Result<u32, Refusal>
    requires { (length board.old ≡ 16384)
        × (n < 1000000)
        × (m < 1000000)
        × (a < 1000000)
        × (b < 1000000) }
    ensures { ReadsRest text.now s n m a b at count board.old table.old (make_answer_of result) table.new }
{
    let entries = n * a;
    if count != n + m + entries + m * b {
        return Err(Refusal::AlistText);
    }
    let rw = walks::skip_numbers(text, at, n);
    let cl = walks::skip_numbers(text, rw, m);
    let rl = walks::skip_numbers(text, cl, entries);
    let columns = Lists {
        weights: at,
        entries: cl,
        count: n,
        width: a,
    };
    let rows = Lists {
        weights: rw,
        entries: rl,
        count: m,
        width: b,
    };
    if !is_sound(board, text, columns, rows) {
        return Err(Refusal::AlistText);
    }
    if !agreeing::lists_agree(board, text, columns, rows) {
        return Err(Refusal::AlistLists);
    }
    make(board, text, s, n, rows, table)
}

// the numbers of a text, and a blank board
fn read_in(board: &mut [u64], text: &[u8], s: usize, table: &mut [u16]) -> Result<u32, Refusal>
    requires { (length board.old ≡ 16384)
        × Blank board.old }
    ensures answer { make_answer_of result ≡ alist_read_answer text.now s table.old }
    ensures table { table.new ≡ alist_read_table_after text.now s table.old }
{
    let Some(count) = numbers::count(text) else {
        return Err(Refusal::AlistText);
    };
    if count < 4 {
        return Err(Refusal::AlistText);
    }
    let n = numbers::read(text, 0);
    let m = numbers::read(text, n.next);
    let a = numbers::read(text, m.next);
    let b = numbers::read(text, a.next);
    read_rest(
        board,
        text,
        s,
        n.value,
        m.value,
        a.value,
        b.value,
        b.next,
        count - 4,
        table,
    )
}

// Reads an alist text, with packets of s bytes: the answer, and the table in front of the buffer. With a refusal the buffer stays as it was.
pub fn read_alist(text: &[u8], s: usize, table: &mut [u16]) -> Result<u32, Refusal>
    ensures answer { make_answer_of result ≡ alist_read_answer text.now s table.old }
    ensures table { table.new ≡ alist_read_table_after text.now s table.old }
{
    let mut board = [0u64; BOARD_WORDS];
    read_in(&mut board, text, s, table)
}
