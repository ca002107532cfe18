// Elimination by highest places: a row of the work buffer is reduced by the rows that an owner list names.
#![tactic(auto)]

ghost use Rattle.std.specs.Prelude.{◌≤◌, length};
ghost use Rattle.bits.specs.Front.{Front};
ghost use Rattle.bits.specs.Row.{row, above};
ghost use Rattle.rows.specs.Leads.{Reducible, Lowered, path_of};

// what is left of a row: its highest place, if it isn't zero; and how many rows were added
#[derive(Clone, Copy, Debug, PartialEq, Eq)]
pub struct Reduced {
    pub lead: Option<usize>,
    // of the places noted in a lent buffer: there is no heap for a list of them
    pub count: usize,
}

// row k is reduced from its highest place down; the places that lead the rows added are noted in that order
pub fn reduce(w: &mut [u64], owner: &[u16], k: usize, n: usize, noted: &mut [u16]) -> Reduced
    requires rows { Reducible w.old owner.now k n }
    requires room { n ≤ length noted.old }
    ensures row { Lowered w.old owner.now k n (row w.old k) w.new (above result.lead) }
    ensures path { Front (path_of w.old owner.now k n) noted.old noted.new result.count }
{
    let mut count = 0;
    let mut lead = bits::highest(w, k, n);
    while let Some(p) = lead {
        let o = usize::from(owner[p]);
        if o == 0 {
            break;
        }
        bits::add_low(w, o - 1, k, p + 1);
        noted[count] = p as u16;
        count += 1;
        lead = bits::highest(w, k, p);
    }
    Reduced { lead, count }
}
