// verify_file TABLE BLOCK: says whether the block is a codeword of the table, or which check fails at
// which byte.
#![tactic(auto)]

use refusals::{Fault, Refusal};
use std::io::Print;
use std::rt::Runtime;

// the most bytes of a block
const MOST_BLOCK: usize = 32768;

fn print_verdict<P: Print, Q: Print>(
    out: &P,
    err: &Q,
    verdict: Result<Option<Fault>, Refusal>,
) -> std::io::Result<()> {
    match verdict {
        Ok(None) => Print::write_all(out, b"codeword\n"),
        Ok(Some(fault)) => text::print_fault(out, u64::from(fault.check), u64::from(fault.byte)),
        Err(refusal) => text::say_refused(err, refusal.number()),
    }
}

fn verify<R: Runtime, P: Print>(rt: &R, err: &P, table: &[u16]) -> std::io::Result<()> {
    let mut block = [0u8; MOST_BLOCK];
    let Some(n) = text::read_argument(rt, err, 2, &mut block)? else {
        return Ok(());
    };
    print_verdict(rt, err, verify::verify(table, &block[..n]))
}

fn main(rt: HostRuntime) -> std::io::Result<()> {
    if !text::has_argument(&rt, 2) || text::has_argument(&rt, 3) {
        Print::write_all(&rt.stderr(), b"usage: verify_file TABLE BLOCK\n")?;
        return Ok(());
    }
    let mut words = [0u16; table_file::MOST_WORDS];
    let Some(n) = text::read_table(&rt, &rt.stderr(), 1, &mut words)? else {
        return Ok(());
    };
    verify(&rt, &rt.stderr(), &words[..n])
}
