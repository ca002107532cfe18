// Runs of plan steps into one slot: a clear or none, and then add steps. A run is carried out piece by piece: the sum of a
// piece's bytes is gathered, and written once.
#![tactic(auto)]

ghost use Rattle.std.specs.Prelude.{◌≡◌, ◌+◌, ◌≤◌, ◌<◌, length, replicate};
ghost use Rattle.slots.specs.Runs.{sources_of, RunAt, Listed};
ghost use Rattle.slots.specs.Slots.{RunIn, Gathers};

// A run's slot and whether it is cleared, and the slots' n, s, block and scratch, are handed on one by one: a struct of lent buffers
// is no plainer, since contracts say of each what it holds before and after.

// ---- a run whose sources are listed

// The bytes of slot to from off on, as many as acc has, become what the run gives; acc is zero.
fn run_part(
    acc: &mut [u8],
    sources: &[u16],
    to: usize,
    fresh: bool,
    off: usize,
    n: usize,
    s: usize,
    block: &mut [u8],
    scratch: &mut [u8],
)
    requires slots { RunIn n s (length block.old) (length scratch.old) to sources.now }
    requires room { off + length acc.old ≤ s }
    requires zero { acc.old ≡ replicate (length acc.old) 0 }
    ensures { Gathers n s fresh to sources.now off (off + length acc.old)
        block.old scratch.old block.new scratch.new }
{
    slots::add_base(acc, to, fresh, off, n, s, block, scratch);
    slots::add_sources(acc, sources, off, n, s, block, scratch);
    slots::put_part(acc, to, off, n, s, block, scratch);
}

// The same for N bytes.
fn run_chunk<const N: usize>(
    sources: &[u16],
    to: usize,
    fresh: bool,
    off: usize,
    n: usize,
    s: usize,
    block: &mut [u8],
    scratch: &mut [u8],
)
    requires slots { RunIn n s (length block.old) (length scratch.old) to sources.now }
    requires room { off + N ≤ s }
    ensures { Gathers n s fresh to sources.now off (off + N)
        block.old scratch.old block.new scratch.new }
{
    let mut acc = [0u8; N];
    run_part(&mut acc, sources, to, fresh, off, n, s, block, scratch);
}

// The same for the last bytes, fewer than 64.
fn run_rest(
    sources: &[u16],
    to: usize,
    fresh: bool,
    off: usize,
    n: usize,
    s: usize,
    block: &mut [u8],
    scratch: &mut [u8],
)
    requires slots { RunIn n s (length block.old) (length scratch.old) to sources.now }
    requires room { (off ≤ s)
        × (s < off + 64) }
    ensures { Gathers n s fresh to sources.now off s
        block.old scratch.old block.new scratch.new }
{
    let mut acc = [0u8; 64];
    let k = s - off;
    run_part(&mut acc[..k], sources, to, fresh, off, n, s, block, scratch);
}

// Slot to from its byte 64 on becomes what the run gives.
fn add_rest(
    sources: &[u16],
    to: usize,
    fresh: bool,
    n: usize,
    s: usize,
    block: &mut [u8],
    scratch: &mut [u8],
)
    requires slots { RunIn n s (length block.old) (length scratch.old) to sources.now }
    requires room { 64 ≤ s }
    ensures { Gathers n s fresh to sources.now 64 s
        block.old scratch.old block.new scratch.new }
{
    let mut off = 64;
    // what is left starts where each loop ends, so that off outlives them
    while 128 <= s - off {
        run_chunk::<128>(sources, to, fresh, off, n, s, block, scratch);
        off += 128;
    }
    while 64 <= s - off {
        run_chunk::<64>(sources, to, fresh, off, n, s, block, scratch);
        off += 64;
    }
    if off == s {
        return;
    }
    run_rest(sources, to, fresh, off, n, s, block, scratch);
}

// ---- a run from its steps

// The first 64 bytes of slot to become what the run gives.
fn start_chunk(
    plan: &[u32],
    first: usize,
    end: usize,
    to: usize,
    fresh: bool,
    sources: &mut [u16],
    n: usize,
    s: usize,
    block: &mut [u8],
    scratch: &mut [u8],
) -> usize
    requires run { RunAt plan.now first end to n s (length block.old) (length scratch.old) }
    requires room { 64 ≤ s }
    requires list { end ≤ first + length sources.old }
    ensures list { Listed (sources_of plan.now first end to) result sources.new }
    ensures slot { Gathers n s fresh to (sources_of plan.now first end to) 0 64
        block.old scratch.old block.new scratch.new }
{
    let mut acc = [0u8; 64];
    slots::add_base(&mut acc, to, fresh, 0, n, s, block, scratch);
    let count = slots::collect(
        &mut acc, plan, first, end, to, sources, n, s, block, scratch,
    );
    slots::put_part(&acc, to, 0, n, s, block, scratch);
    count
}

// Slot to becomes what the run gives: cleared or not, and then the add steps into it from first on, up to end. How many these
// are; their sources are listed.
pub fn add_run(
    plan: &[u32],
    first: usize,
    end: usize,
    to: usize,
    fresh: bool,
    sources: &mut [u16],
    n: usize,
    s: usize,
    block: &mut [u8],
    scratch: &mut [u8],
) -> usize
    requires run { RunAt plan.now first end to n s (length block.old) (length scratch.old) }
    requires list { end ≤ first + length sources.old }
    ensures list { Listed (sources_of plan.now first end to) result sources.new }
    ensures slot { Gathers n s fresh to (sources_of plan.now first end to) 0 s
        block.old scratch.old block.new scratch.new }
{
    if s < 64 {
        let mut none = [0u8; 0];
        let count = slots::collect(
            &mut none, plan, first, end, to, sources, n, s, block, scratch,
        );
        run_rest(&sources[..count], to, fresh, 0, n, s, block, scratch);
        return count;
    }
    let count = start_chunk(plan, first, end, to, fresh, sources, n, s, block, scratch);
    add_rest(&sources[..count], to, fresh, n, s, block, scratch);
    count
}
