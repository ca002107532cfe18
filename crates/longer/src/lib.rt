// Whether a table lengthens another.
#![tactic(auto)]

ghost use Rattle.std.specs.Prelude.{◌≡◌, ◌≤◌};
ghost use Rattle.longer.specs.Longer.{are_first, lengthens};
ghost use Rattle.table.specs.Table.{checks};

use table::Table;

// whether the checks of the old table are the first of the new one: the same weights, and the same places
fn same_checks(old: &Table, new: &Table) -> bool
    requires { old.now.checks ≤ new.now.checks }
    ensures { result ≡ are_first (checks old.now.words.now) (checks new.now.words.now) }
{
    let at = 4 + old.checks;
    if old.words[4..at] != new.words[4..at] {
        return false;
    }
    let first = 5 + old.checks;
    let last = old.words.len();
    let start = 5 + new.checks;
    let end = start + (last - first);
    old.words[first..last] == new.words[start..end]
}

// Whether the new table lengthens the old one.
pub fn is_lengthening(old: &Table, new: &Table) -> bool
    ensures { result ≡ lengthens old.now.words.now new.now.words.now }
{
    old.size == new.size
        && old.places <= new.places
        && old.checks <= new.checks
        && same_checks(old, new)
}
