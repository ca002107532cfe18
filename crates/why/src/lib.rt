// The receiver: why a packet is missing, the call with its refusals.
#![tactic(auto)]

ghost use Rattle.std.specs.Prelude.{◌≡◌, ◌*◌, ◌≤◌, ◌<◌, length};
ghost use Rattle.std.specs.Result.{IfOk};
ghost use Rattle.std.proofs.Math.Option.{none};
ghost use Rattle.explain.specs.Kinds.{kind_of, length_of};
ghost use Rattle.full.specs.Full.{FittingAll};
ghost use Rattle.report.specs.Report.{told_by};
ghost use Rattle.refusals.specs.Refusals.{refusal_of};
ghost use Rattle.table.specs.FirstCause.{first_cause};
ghost use Rattle.table.specs.Table.{checks};
ghost use Rattle.why.specs.Telling.{Tells};
ghost use Rattle.why.specs.Why.{Explains, early_causes, why_answer_of};

use explain::Told;
use refusals::Refusal;
use table::{MOST_PLACES, Table, WORK_WORDS};

// the numbers of a reason buffer
pub const REASON_NUMBERS: usize = 1024;

// What is told of the place, and full repair's counts.
#[derive(Clone, Copy, Debug, PartialEq, Eq)]
pub struct Reason {
    pub told: Told,
    pub restored: u32,
    pub lost: u32,
}

// the table, unless one of 1 to 5, 7 and 14 refuses
fn look<'a>(
    t: &'a [u16],
    block: &[u8],
    map: &[u8],
    work: &[u64],
    place: usize,
    reason: &[u16],
) -> Result<Table<'a>, Refusal>
    ensures refusal { refusal_of result ≡ first_cause (early_causes t.now block.now map.now work.now place reason.now) }
    ensures words { IfOk result (λ table. table.words ≡ t.entry) }
{
    let table = Table::new(t)?;
    if marks::wrong_lengths(block, map, table.places, table.size)
        || work.len() != WORK_WORDS
        || reason.len() != REASON_NUMBERS
    {
        return Err(Refusal::Buffer);
    }
    if marks::over(map, 1) {
        return Err(Refusal::Map);
    }
    if table.places <= place {
        return Err(Refusal::NoReason);
    }
    Ok(table)
}

// the list for the place and then zeros
fn tell(table: &Table, lost: &[u8], place: usize, work: &mut [u64], reason: &mut [u16]) -> Told
    requires { (length lost.now ≡ table.now.places)
        × (place < table.now.places)
        × (table.now.checks * 16 ≤ length work.old)
        × (length reason.old ≡ 1024) }
    ensures { Tells table.now.places (checks table.now.words.now) lost.now place result reason.new }
{
    reason.fill(0);
    if lost[place] != 1 {
        return Told::Received;
    }
    explain::explain(table, lost, place, work, reason)
}

// the call where none of 1 to 7 and 14 refuses
fn why_packets(
    table: &Table,
    block: &mut [u8],
    map: &mut [u8],
    work: &mut [u64],
    place: usize,
    reason: &mut [u16],
) -> Result<Reason, Refusal>
    requires fitting { FittingAll table.now.words.now block.old map.old work.old }
    requires place { (place < table.now.places)
        × (length reason.old ≡ 1024) }
    ensures reason { Explains table.now.words.now block.old map.old work.old place reason.old
        (why_answer_of result) block.new map.new work.new reason.new }
    ensures told { told_by result ≡ none }
{
    let mut saved = [0u8; MOST_PLACES];
    packets::copy(&mut saved, 0, map, 0, table.places);
    let full = full::full_repair(table.words, block, map, work)?;
    let told = tell(table, &saved[..table.places], place, work, reason);
    work.fill(0);
    Ok(Reason {
        told,
        restored: full.restored,
        lost: full.lost,
    })
}

// Full repair, and the reason for one place.
pub fn why(
    t: &[u16],
    block: &mut [u8],
    map: &mut [u8],
    work: &mut [u64],
    place: usize,
    reason: &mut [u16],
) -> Result<Reason, Refusal>
    ensures reason { Explains t.now block.old map.old work.old place reason.old
        (why_answer_of result) block.new map.new work.new reason.new }
    ensures told { told_by result ≡ none }
{
    let table = look(t, block, map, work, place, reason)?;
    why_packets(&table, block, map, work, place, reason)
}

// What is told of a place, in numbers: the kind, and the length of the list.
pub fn in_numbers(told: Told) -> (u32, u32)
    ensures kind { result.0 ≡ kind_of told }
    ensures length { result.1 ≡ length_of told }
{
    match told {
        Told::Received => (1, 0),
        Told::Restored(length) => (2, length),
        Told::Lost(length) => (3, length),
    }
}
