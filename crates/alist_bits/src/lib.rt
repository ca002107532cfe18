// A table's places and its checks as rows of bits: one row for each.
#![tactic(auto)]

ghost use Rattle.std.specs.Prelude.{ℕ, ◌<◌, ◌≡◌, length, get_or};
ghost use Rattle.lists.specs.Lists.{All};
ghost use Rattle.alist_bits.specs.Loaded.{Flipped, Loaded};

use table::Table;

// check j is flipped in the row of each of its places
fn turn_check(columns: &mut [u64], j: usize, places: &[u16])
    requires { (length columns.old ≡ 16384)
        × (j < 1024)
        × All (λ p. p < 1024) places.now }
    ensures { Flipped j places.now columns.old columns.new }
{
    for p in places {
        bits::flip(columns, usize::from(*p), j);
    }
}

// the table's places and its checks as rows of bits
pub fn load(table: &Table, columns: &mut [u64], rows: &mut [u64])
    requires room { (length columns.old ≡ 16384)
        × (length rows.old ≡ 8192) }
    requires zeros { (p : ℕ) → get_or columns.old p 0 ≡ 0 }
    ensures { Loaded table.now.words.now table.now.checks columns.new rows.new }
{
    let mut at = 5 + table.checks;
    for j in 0..table.checks {
        let weight = usize::from(table.words[4 + j]);
        let places = table::run(table.words, at, weight);
        bits::load(rows, j, places);
        turn_check(columns, j, places);
        at += weight;
    }
}
