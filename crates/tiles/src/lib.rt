// The lists of an alist text in a board of bits, a tile of 1,024 rows and columns at a time: repeats, and lists flipped, for texts of every size.
#![tactic(auto)]

ghost use Rattle.std.specs.Prelude.{◌≡◌, ◌≤◌, ◌<◌, eqb, length};
ghost use Rattle.tiles.specs.Board.{Flips, in_column, by_columns, turned};
ghost use Rattle.tiles.specs.Tiles.{Marks, Unmarks, FlipsList, FlipsLists};

// the words of a board
pub const BOARD_WORDS: usize = 16384;

// the rows and columns of a tile
pub const SIDE: usize = 1024;

// whether lists stand in a tile's columns or in its rows
#[derive(Clone, Copy, Debug, PartialEq, Eq)]
pub enum Axis {
    Columns,
    Rows,
}

// where lists stand in a text: their weights and their entries, how many they are, and the numbers of each
#[derive(Clone, Copy, Debug, PartialEq, Eq)]
pub struct Lists {
    pub weights: usize,
    pub entries: usize,
    pub count: usize,
    pub width: usize,
}

// two cursors: at a weight, and at its list
#[derive(Clone, Copy, Debug, PartialEq, Eq)]
pub struct Cursors {
    pub weights: usize,
    pub lists: usize,
}

// ---- repeats

// flips the bits of count numbers, if they are 1 to most and all different
pub fn mark(board: &mut [u64], text: &[u8], at: usize, count: usize, most: usize) -> bool
    requires { length board.old ≡ 16384 }
    ensures len { length board.new ≡ length board.old }
    ensures marks { Marks text.now at count most board.old result board.new }
{
    let mut next = at;
    for i in 0..count {
        let spot = numbers::read(text, next);
        let x = spot.value;
        if x == 0 {
            return false;
        }
        if most < x {
            return false;
        }
        if bits::has_place(board, x / SIDE, x % SIDE) {
            return false;
        }
        bits::flip(board, x / SIDE, x % SIDE);
        next = spot.next;
    }
    true
}

// flips the bits of count numbers, and says where they end
pub fn unmark(board: &mut [u64], text: &[u8], at: usize, count: usize) -> usize
    requires { length board.old ≡ 16384 }
    ensures len { length board.new ≡ length board.old }
    ensures flips { Unmarks text.now at count board.old result board.new }
{
    let mut next = at;
    for i in 0..count {
        let spot = numbers::read(text, next);
        bits::flip(board, spot.value / SIDE, spot.value % SIDE);
        next = spot.next;
    }
    next
}

// ---- lists in a tile

// flips the bit of number x of list j, if x is one of the span numbers behind low
fn flip_entry(board: &mut [u64], x: usize, low: usize, span: usize, j: usize, axis: Axis)
    requires { (length board.old ≡ 16384)
        × (span ≤ 1024)
        × (j < 1024) }
    ensures { Flips board.old (turned (by_columns axis) (in_column low span j (λ y. eqb y x))) board.new }
{
    if x <= low {
        return;
    }
    let k = x - low - 1;
    if span <= k {
        return;
    }
    match axis {
        Axis::Columns => bits::flip(board, k, j),
        Axis::Rows => bits::flip(board, j, k),
    }
}

// flips the bits of list j, and says where its entries end
fn flip_list(
    board: &mut [u64],
    text: &[u8],
    at: usize,
    weight: usize,
    low: usize,
    span: usize,
    j: usize,
    axis: Axis,
) -> usize
    requires { (length board.old ≡ 16384)
        × (span ≤ 1024)
        × (j < 1024) }
    ensures len { length board.new ≡ length board.old }
    ensures flips { FlipsList text.now at weight low span j (by_columns axis) board.old result board.new }
{
    let mut next = at;
    for i in 0..weight {
        let spot = numbers::read(text, next);
        flip_entry(board, spot.value, low, span, j, axis);
        next = spot.next;
    }
    next
}

// flips the bits of lists, and says where they end
pub fn flip_lists(
    board: &mut [u64],
    text: &[u8],
    lists: Lists,
    low: usize,
    span: usize,
    axis: Axis,
) -> Cursors
    requires { (length board.old ≡ 16384)
        × (span ≤ 1024)
        × (lists.count ≤ 1024) }
    ensures len { length board.new ≡ length board.old }
    ensures flips { FlipsLists text.now lists.weights lists.entries lists.count lists.width low span (by_columns axis) board.old result.weights result.lists board.new }
{
    let mut weight = lists.weights;
    let mut next = lists.entries;
    for j in 0..lists.count {
        let spot = numbers::read(text, weight);
        let padding = flip_list(board, text, next, spot.value, low, span, j, axis);
        next = walks::skip_numbers(text, padding, lists.width.saturating_sub(spot.value));
        weight = spot.next;
    }
    Cursors {
        weights: weight,
        lists: next,
    }
}
