// Walks over the numbers of a text.
#![tactic(auto)]

ghost use Rattle.std.specs.Prelude.{eqb};
ghost use Rattle.lists.specs.Lists.{all_pass};
ghost use Rattle.alist.specs.Alist.{greatest as greatest_of};
ghost use Rattle.walks.specs.Walks.{Tells, Skips};

// behind count numbers
pub fn skip_numbers(text: &[u8], at: usize, count: usize) -> usize
    ensures { Skips text.now at count result }
{
    let mut next = at;
    for i in 0..count {
        let spot = numbers::read(text, next);
        next = spot.next;
    }
    next
}

// the greatest of count numbers
pub fn greatest(text: &[u8], at: usize, count: usize) -> usize
    ensures { Tells text.now at count greatest_of result }
{
    let mut most: usize = 0;
    let mut next = at;
    for i in 0..count {
        let spot = numbers::read(text, next);
        most = most.max(spot.value);
        next = spot.next;
    }
    most
}

// count numbers are 0
pub fn all_zero(text: &[u8], at: usize, count: usize) -> bool
    ensures { Tells text.now at count (all_pass (λ x. eqb x 0)) result }
{
    let mut next = at;
    for i in 0..count {
        let spot = numbers::read(text, next);
        if spot.value != 0 {
            return false;
        }
        next = spot.next;
    }
    true
}
