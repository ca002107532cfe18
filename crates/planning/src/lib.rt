// The planner's answer; the planner's call, definitions and laws.
#![tactic(auto)]

// the plan's length, M, W, g and the number of add steps
#[derive(Clone, Copy, Debug, PartialEq, Eq)]
pub struct Planned {
    pub length: u32,
    pub kept: u32,
    pub ones: u32,
    pub gap: u32,
    pub additions: u32,
}
