// The receiver's library for C: the packet call, verification, repair, full repair, merging, a longer table, and the reason for one place.
#![tactic(auto)]

ghost use Rattle.std.specs.Prelude.{◌≡◌, length};
ghost use Rattle.table.specs.PacketCall.{packet_refusal, part_start, part_len};
ghost use Rattle.verify.specs.Verify.{verify_answer};
ghost use Rattle.repair.specs.Repair.{repair_answer, repair_block_after, repair_map_after};
ghost use Rattle.full.specs.Full.{full_answer, full_block_after, full_map_after, full_work_after};
ghost use Rattle.faults.specs.Faults.{check_of, byte_of};
ghost use Rattle.erasure.specs.Offered.{held};
ghost use Rattle.merge.specs.Merge.{merge_answer, merge_after};
ghost use Rattle.lengthen.specs.Lengthen.{lengthen_answer, lengthen_after};
ghost use Rattle.why.specs.Why.{Explains};
ghost use Rattle.report.specs.Report.{repair_answer_of};
ghost use Rattle.receiver.specs.Answers.{one_if, repaired, fully_repaired, merged, reasoned};

use refusals::Refusal;
use report::Repaired;

// Refusals and kinds are numbers here, and answers plain structs: that is the C interface.

// Where in the block a packet lies: 0 and 0 on refusal.
#[repr(C)]
#[derive(Drop)]
pub struct Part {
    pub refusal: u32,
    pub start: usize,
    pub length: usize,
}

#[unsafe(no_mangle)]
pub extern "C" fn bs_packet(n: usize, s: usize, place: usize, block: &[u8]) -> Part
    ensures refusal { result.refusal ≡ packet_refusal n s place (length block.now) }
    ensures start { result.start ≡ part_start n s place (length block.now) }
    ensures length { result.length ≡ part_len n s place (length block.now) }
{
    match table::look_at_place(n, s, place, block.len()) {
        Ok(()) => Part {
            refusal: 0,
            start: place * s,
            length: s,
        },
        Err(refusal) => Part {
            refusal: refusal.number(),
            start: 0,
            length: 0,
        },
    }
}

// What verification says: codeword 1 or 0, and the lowest check that fails with its byte, else 0.
#[repr(C)]
#[derive(Drop)]
pub struct Verification {
    pub refusal: u32,
    pub codeword: u32,
    pub check: u32,
    pub byte: u32,
}

#[unsafe(no_mangle)]
pub extern "C" fn bs_verify(table: &[u16], block: &[u8]) -> Verification
    ensures refusal { result.refusal ≡ (verify_answer table.now block.now).refusal }
    ensures codeword { result.codeword ≡ one_if (verify_answer table.now block.now).codeword }
    ensures check { result.check ≡ check_of (verify_answer table.now block.now).fault }
    ensures byte { result.byte ≡ byte_of (verify_answer table.now block.now).fault }
{
    match verify::verify(table, block) {
        Ok(None) => Verification {
            refusal: 0,
            codeword: 1,
            check: 0,
            byte: 0,
        },
        Ok(Some(found)) => Verification {
            refusal: 0,
            codeword: 0,
            check: found.check,
            byte: found.byte,
        },
        Err(refusal) => {
            let fault = repair::told(refusal);
            Verification {
                refusal: refusal.number(),
                codeword: 0,
                check: fault.check,
                byte: fault.byte,
            }
        }
    }
}

// What repair reports: the refusal, 0 for none, the counts, and with refusal 8 the lowest check that
// fails with its byte, else 0.
#[repr(C)]
#[derive(Drop)]
pub struct Repair {
    pub refusal: u32,
    pub restored: u32,
    pub lost: u32,
    pub additions: u32,
    pub check: u32,
    pub byte: u32,
}

// The same of an answer of repair, or of a call that goes on with it.
fn repair_for_c(answer: Result<Repaired, Refusal>) -> Repair
    ensures { repaired result ≡ repair_answer_of answer }
{
    match answer {
        Ok(r) => Repair {
            refusal: 0,
            restored: r.restored,
            lost: r.lost,
            additions: r.additions,
            check: 0,
            byte: 0,
        },
        Err(refusal) => {
            let handed = repair::told(refusal);
            Repair {
                refusal: refusal.number(),
                restored: 0,
                lost: 0,
                additions: 0,
                check: handed.check,
                byte: handed.byte,
            }
        }
    }
}

#[unsafe(no_mangle)]
pub extern "C" fn bs_repair(table: &[u16], block: &mut [u8], map: &mut [u8]) -> Repair
    ensures report { repaired result ≡ repair_answer table.now block.old map.old }
    ensures block { block.new ≡ repair_block_after table.now block.old map.old }
    ensures map { map.new ≡ repair_map_after table.now block.old map.old }
{
    repair_for_c(repair::repair(table, block, map))
}

// What full repair reports: the refusal, 0 for none, and the counts; check and byte are 0.
#[repr(C)]
#[derive(Drop)]
pub struct FullRepair {
    pub refusal: u32,
    pub restored: u32,
    pub lost: u32,
    pub check: u32,
    pub byte: u32,
}

#[unsafe(no_mangle)]
pub extern "C" fn bs_full_repair(
    table: &[u16],
    block: &mut [u8],
    map: &mut [u8],
    work: &mut [u64],
) -> FullRepair
    ensures report { fully_repaired result ≡ full_answer table.now block.old map.old work.old }
    ensures block { block.new ≡ full_block_after table.now block.old map.old work.old }
    ensures map { map.new ≡ full_map_after table.now block.old map.old work.old }
    ensures work { work.new ≡ full_work_after table.now block.old map.old work.old }
{
    match full::full_repair(table, block, map, work) {
        Ok(f) => FullRepair {
            refusal: 0,
            restored: f.restored,
            lost: f.lost,
            check: 0,
            byte: 0,
        },
        Err(cause) => {
            let fault = repair::told(cause);
            FullRepair {
                refusal: cause.number(),
                restored: 0,
                lost: 0,
                check: fault.check,
                byte: fault.byte,
            }
        }
    }
}

// What merging reports: the refusal, 0 for none; the four counts; the repair's; and with refusal 8 the
// lowest check that fails with its byte, else 0.
#[repr(C)]
#[derive(Drop)]
pub struct Merge {
    pub refusal: u32,
    pub agreed: u32,
    pub single: u32,
    pub silent: u32,
    pub clash: u32,
    pub restored: u32,
    pub lost: u32,
    pub additions: u32,
    pub check: u32,
    pub byte: u32,
}

#[unsafe(no_mangle)]
pub extern "C" fn bs_merge(
    table: &[u16],
    block1: &[u8],
    map1: &[u8],
    block2: &[u8],
    map2: &[u8],
    block3: &mut [u8],
    map3: &mut [u8],
) -> Merge
    ensures report { merged result
        ≡ merge_answer table.now
        (held block1.now map1.now)
        (held block2.now map2.now)
        (held block3.old map3.old) }
    ensures block { block3.new
        ≡ (merge_after table.now
        (held block1.now map1.now)
        (held block2.now map2.now)
        (held block3.old map3.old)).block }
    ensures map { map3.new
        ≡ (merge_after table.now
        (held block1.now map1.now)
        (held block2.now map2.now)
        (held block3.old map3.old)).map }
{
    match merge::merge(table, block1, map1, block2, map2, block3, map3) {
        Ok(m) => Merge {
            refusal: 0,
            agreed: m.agreed,
            single: m.single,
            silent: m.silent,
            clash: m.clash,
            restored: m.repaired.restored,
            lost: m.repaired.lost,
            additions: m.repaired.additions,
            check: 0,
            byte: 0,
        },
        Err(refusal) => {
            let fault = repair::told(refusal);
            Merge {
                refusal: refusal.number(),
                agreed: 0,
                single: 0,
                silent: 0,
                clash: 0,
                restored: 0,
                lost: 0,
                additions: 0,
                check: fault.check,
                byte: fault.byte,
            }
        }
    }
}

#[unsafe(no_mangle)]
pub extern "C" fn bs_lengthen(
    old: &[u16],
    new: &[u16],
    block: &mut [u8],
    map: &mut [u8],
    arrivals: &[u8],
    arrived: &[u8],
) -> Repair
    ensures report { repaired result
        ≡ lengthen_answer old.now new.now
        (held block.old map.old)
        (held arrivals.now arrived.now) }
    ensures block { block.new
        ≡ (lengthen_after old.now new.now
        (held block.old map.old)
        (held arrivals.now arrived.now)).block }
    ensures map { map.new
        ≡ (lengthen_after old.now new.now
        (held block.old map.old)
        (held arrivals.now arrived.now)).map }
{
    repair_for_c(lengthen::lengthen(old, new, block, map, arrivals, arrived))
}

// What the reason for one place reports: the refusal, 0 for none; its kind, 1 received, 2 restored, 3 lost; the
// length of its list; full repair's counts; check and byte are 0.
#[repr(C)]
#[derive(Drop)]
pub struct Reason {
    pub refusal: u32,
    pub kind: u32,
    pub length: u32,
    pub restored: u32,
    pub lost: u32,
    pub check: u32,
    pub byte: u32,
}

#[unsafe(no_mangle)]
pub extern "C" fn bs_why(
    table: &[u16],
    block: &mut [u8],
    map: &mut [u8],
    work: &mut [u64],
    place: usize,
    reason: &mut [u16],
) -> Reason
    ensures { Explains table.now block.old map.old work.old place reason.old
        (reasoned result) block.new map.new work.new reason.new }
{
    match why::why(table, block, map, work, place, reason) {
        Ok(w) => {
            let (kind, length) = why::in_numbers(w.told);
            Reason {
                refusal: 0,
                kind,
                length,
                restored: w.restored,
                lost: w.lost,
                check: 0,
                byte: 0,
            }
        }
        Err(refusal) => {
            let fault = repair::told(refusal);
            Reason {
                refusal: refusal.number(),
                kind: 0,
                length: 0,
                restored: 0,
                lost: 0,
                check: fault.check,
                byte: fault.byte,
            }
        }
    }
}
