// Whether the rows of an alist text agree with its columns, tile by tile.
#![tactic(auto)]

ghost use Rattle.std.specs.Prelude.{◌≡◌, ◌≤◌, ◌<◌, length};
ghost use Rattle.tiles.specs.Board.{Blank, Decides};
ghost use Rattle.tiles.specs.Tiles.{Agrees};

use tiles::{Axis, Lists, SIDE, flip_lists};

// whether every bit is 0
fn is_blank(board: &[u64]) -> bool
    requires { length board.now ≡ 16384 }
    ensures { Decides result (Blank board.now) }
{
    for x in board {
        if *x != 0 {
            return false;
        }
    }
    true
}

// The loops go in steps of a tile: over `step_by` their measure stays unproved.

// rows from row r on agree with columns
fn band_agrees(board: &mut [u64], text: &[u8], columns: Lists, rows: Lists, r: usize) -> bool
    requires { (length board.old ≡ 16384)
        × (rows.count ≤ 1024) }
    ensures len { length board.new ≡ length board.old }
    ensures agrees { Agrees text.now columns.weights columns.entries columns.count columns.width
        rows.weights rows.entries r rows.count rows.width board.old result board.new }
{
    let mut weight = columns.weights;
    let mut next = columns.entries;
    let mut c = 0;
    // by steps of a tile, the last of which is narrower: with `step_by` its measure stays unproved
    while c < columns.count {
        let span = SIDE.min(columns.count - c);
        let tile = Lists {
            weights: weight,
            entries: next,
            count: span,
            width: columns.width,
        };
        let ends = flip_lists(board, text, tile, r, rows.count, Axis::Columns);
        flip_lists(board, text, rows, c, span, Axis::Rows);
        if !is_blank(board) {
            return false;
        }
        weight = ends.weights;
        next = ends.lists;
        c += span;
    }
    true
}

// all rows agree with all columns
pub fn lists_agree(board: &mut [u64], text: &[u8], columns: Lists, rows: Lists) -> bool
    requires { (length board.old ≡ 16384)
        × (rows.width < 1000000) }
    ensures len { length board.new ≡ length board.old }
    ensures agrees { Agrees text.now columns.weights columns.entries columns.count columns.width
        rows.weights rows.entries 0 rows.count rows.width board.old result board.new }
{
    let mut weight = rows.weights;
    let mut next = rows.entries;
    let mut r = 0;
    // as above, by steps of a tile
    while r < rows.count {
        let k = SIDE.min(rows.count - r);
        let band = Lists {
            weights: weight,
            entries: next,
            count: k,
            width: rows.width,
        };
        if !band_agrees(board, text, columns, band, r) {
            return false;
        }
        weight = walks::skip_numbers(text, weight, k);
        next = walks::skip_numbers(text, next, k * rows.width);
        r += k;
    }
    true
}
