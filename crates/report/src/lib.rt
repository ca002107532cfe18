// What repair reports, and so do the calls that go on with it.
#![tactic(auto)]

// How many places were restored, how many are still lost, and the additions.
#[derive(Clone, Copy, Debug, PartialEq, Eq)]
pub struct Repaired {
    pub restored: u32,
    pub lost: u32,
    pub additions: u32,
}
