// Why a call refuses: the causes, each with its number.
#![tactic(auto)]

ghost use Rattle.std.specs.Prelude.{◌≡◌};
ghost use Rattle.refusals.specs.Refusals.{number_of};
ghost use Rattle.refusals.specs.declared.Refusal.TheVariants.{Contradiction};

use std::error::Error;
use std::fmt;

// A check that fails, and the lowest byte of its sum that isn't zero.
#[derive(Clone, Copy, Debug, PartialEq, Eq)]
pub struct Fault {
    pub check: u32,
    pub byte: u32,
}

// The causes, in the order of their numbers.
#[derive(Clone, Copy, Debug, PartialEq, Eq)]
pub enum Refusal {
    // a table of fewer than 5 words
    ShortTable,
    // a table's first word, or a size beyond its limits
    Limits,
    // a table's weights, ones and length
    Lengths,
    // a place of a check that is none of the block's, or doesn't ascend
    Places,
    // a lent buffer of wrong length
    Buffer,
    // too many checks set aside
    Aside,
    // a map byte over 1
    Map,
    // received packets contradict each other: the lowest check that fails
    Contradiction(Fault),
    // no codeword agrees with the received packets
    NoCodeword,
    // a plan that isn't well-formed
    Plan,
    // no place of the block, for the packet call
    NoPlace,
    // a staircase's parameters, or its draws
    Staircase,
    // not alist text
    AlistText,
    // column and row lists that disagree
    AlistLists,
    // no place of the block, for the reason
    NoReason,
    // no lengthening of the old table
    NotLonger,
    // a mark over 2 at an old place
    OldMap,
}

impl Refusal {
    // the cause's number
    pub fn number(self) -> u32
        ensures { result ≡ number_of self }
    {
        match self {
            Refusal::ShortTable => 1,
            Refusal::Limits => 2,
            Refusal::Lengths => 3,
            Refusal::Places => 4,
            Refusal::Buffer => 5,
            Refusal::Aside => 6,
            Refusal::Map => 7,
            Refusal::Contradiction(_) => 8,
            Refusal::NoCodeword => 8,
            Refusal::Plan => 9,
            Refusal::NoPlace => 10,
            Refusal::Staircase => 11,
            Refusal::AlistText => 12,
            Refusal::AlistLists => 13,
            Refusal::NoReason => 14,
            Refusal::NotLonger => 15,
            Refusal::OldMap => 16,
        }
    }
}

impl From<Fault> for Refusal {
    ghost from_gives = { λ f r. r ≡ Contradiction f };

    fn from(fault: Fault) -> Refusal {
        Refusal::Contradiction(fault)
    }
}

impl fmt::Display for Refusal {
    fn fmt<W: fmt::Write>(&self, f: &mut fmt::Formatter<W>) -> fmt::Result {
        let number = self.number();
        write!(f, "refused {number}")
    }
}

impl Error for Refusal {}
