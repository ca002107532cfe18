// The receiver: verification.
#![tactic(auto)]

ghost use Rattle.std.specs.Prelude.{◌≡◌, ◌*◌, ◌<◌, ℕ, Bool, List, [], length, get_or};
ghost use Rattle.table.specs.Packets.{packets};
ghost use Rattle.table.specs.Table.{checks};
ghost use Rattle.faults.specs.Faults.{failing, fault_found};
ghost use Rattle.verify.specs.Verify.{Judges, values_of, verify_answer};

use refusals::{Fault, Refusal};
use table::Table;

// The lowest check that is judged and fails, and the lowest byte of its sum that isn't zero. A check that isn't judged is
// one that doesn't count, or whose sum is known to be zero.
pub fn lowest_failing<F: Fn(usize) -> bool>(table: &Table, block: &[u8], judged: F) -> Option<Fault>
    requires bytes { length block.now ≡ table.now.places * table.now.size }
    requires asked { (j : ℕ) → j < table.now.checks → F.pre judged j }
    ensures { (counts : List ℕ → Bool)
        → ((j : ℕ) (r : Bool) → j < table.now.checks → F.post judged j r → Judges table.now.size (packets table.now.size table.now.places block.now) counts (get_or (checks table.now.words.now) j []) r)
        → fault_found result ≡ failing counts table.now.size (packets table.now.size table.now.places block.now) 0 (checks table.now.words.now) }
{
    let mut at = 5 + table.checks;
    for j in 0..table.checks {
        let w = usize::from(table.words[4 + j]);
        if judged(j) {
            let places = table::run(table.words, at, w);
            if let Some(low) = sums::sum_of_check(places, block, table.places, table.size) {
                return Some(Fault {
                    check: j as u32,
                    byte: low as u32,
                });
            }
        }
        at += w;
    }
    None
}

// The lowest check that fails, and the lowest byte of its sum that isn't zero; none if the block is a codeword.
pub fn verify(t: &[u16], block: &[u8]) -> Result<Option<Fault>, Refusal>
    ensures { values_of result ≡ verify_answer t.now block.now }
{
    let table = Table::new(t)?;
    if block.len() != table.places * table.size {
        return Err(Refusal::Buffer);
    }
    // a check that fails has an arm of its own, in which the must-fail edits plant a wrong answer
    match lowest_failing(&table, block, |_| true) {
        Some(fault) => Ok(Some(fault)),
        None => Ok(None),
    }
}
