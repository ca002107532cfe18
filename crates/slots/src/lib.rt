// The slots of an encoding in block and scratch, steps as they are decoded, and parts of slots: added, and put back.
#![tactic(auto)]

ghost use Rattle.std.specs.Prelude.{◌≡◌, ◌+◌, ◌<◌, ◌≤◌, length, unwrap_or, IfSome};
ghost use Rattle.plan.specs.Step.{unpack};
ghost use Rattle.slots.specs.Runs.{no_slot, step_in, is_clear, target_of, source_into, sources_of, RunAt, Listed};
ghost use Rattle.slots.specs.Slots.{SlotIn, SlotsIn, PartAdded, PartsAdded, PartPut, BaseAdded};

use plan::Step;

// ---- steps

// The step that a plan number is decoded to.
pub fn decode(word: u32) -> Step
    ensures { result ≡ step_in (unpack word) }
{
    Step::unpack(word).unwrap_or(Step::Clear(0))
}

pub fn is_clear(x: Step) -> bool
    ensures { result ≡ is_clear x }
{
    matches!(x, Step::Clear(_))
}

// The slot that a step writes.
pub fn target(x: Step) -> usize
    ensures { result ≡ target_of x }
{
    match x {
        Step::Clear(to) | Step::Add(to, _) => to,
    }
}

// The slot that the step of a plan number adds into slot to, if it does.
fn source_into(word: u32, to: usize) -> Option<usize>
    ensures source { unwrap_or result no_slot ≡ source_into (step_in (unpack word)) to }
    ensures slot { IfSome result (λ f. f < no_slot) }
{
    match Step::unpack(word) {
        Some(Step::Add(t, from)) if t == to => Some(from),
        _ => None,
    }
}

// ---- parts of slots

// The bytes of slot f from off on, as many as acc has, are added into acc.
fn add_part(acc: &mut [u8], f: usize, off: usize, n: usize, s: usize, block: &[u8], scratch: &[u8])
    requires slot { SlotIn n s (length block.now) (length scratch.now) f }
    requires room { off + length acc.old ≤ s }
    ensures { PartAdded n s f off block.now scratch.now acc.old acc.new }
{
    let k = acc.len();
    if f < n {
        packets::add_from(acc, 0, block, f * s + off, k);
    } else {
        packets::add_from(acc, 0, scratch, (f - n) * s + off, k);
    }
}

// Those of the slots of sources.
pub fn add_sources(
    acc: &mut [u8],
    sources: &[u16],
    off: usize,
    n: usize,
    s: usize,
    block: &[u8],
    scratch: &[u8],
)
    requires slots { SlotsIn n s (length block.now) (length scratch.now) sources.now }
    requires room { off + length acc.old ≤ s }
    ensures { PartsAdded n s sources.now off block.now scratch.now acc.old acc.new }
{
    // over places, of which a must-fail edit leaves out the first
    for m in 0..sources.len() {
        add_part(acc, usize::from(sources[m]), off, n, s, block, scratch);
    }
}

// acc becomes the bytes of slot to from off on.
pub fn put_part(
    acc: &[u8],
    to: usize,
    off: usize,
    n: usize,
    s: usize,
    block: &mut [u8],
    scratch: &mut [u8],
)
    requires slot { SlotIn n s (length block.old) (length scratch.old) to }
    requires room { off + length acc.now ≤ s }
    ensures { PartPut n s to off acc.now block.old scratch.old block.new scratch.new }
{
    let k = acc.len();
    if to < n {
        packets::copy(block, to * s + off, acc, 0, k);
    } else {
        packets::copy(scratch, (to - n) * s + off, acc, 0, k);
    }
}

// What a run starts from is added into acc: the bytes of slot to, none after a clear. Whether there is a clear is read from the
// plan's number, so it is a bool and no step of the caller's.
pub fn add_base(
    acc: &mut [u8],
    to: usize,
    fresh: bool,
    off: usize,
    n: usize,
    s: usize,
    block: &[u8],
    scratch: &[u8],
)
    requires slot { SlotIn n s (length block.now) (length scratch.now) to }
    requires room { off + length acc.old ≤ s }
    ensures { BaseAdded n s fresh to off block.now scratch.now acc.old acc.new }
{
    if !fresh {
        add_part(acc, to, off, n, s, block, scratch);
    }
}

// ---- the sources of a run, from its steps

// Decodes the numbers from first on, up to end, while they are add steps into slot to: lists their sources, and adds the first
// bytes of these into acc. How many they are.
pub fn collect(
    acc: &mut [u8],
    plan: &[u32],
    first: usize,
    end: usize,
    to: usize,
    sources: &mut [u16],
    n: usize,
    s: usize,
    block: &[u8],
    scratch: &[u8],
) -> usize
    requires run { RunAt plan.now first end to n s (length block.now) (length scratch.now) }
    requires room { length acc.old ≤ s }
    requires list { end ≤ first + length sources.old }
    ensures list { Listed (sources_of plan.now first end to) result sources.new }
    ensures sum { PartsAdded n s (sources_of plan.now first end to) 0
        block.now scratch.now acc.old acc.new }
{
    let most = end - first;
    for count in 0..most {
        let Some(from) = source_into(plan[first + count], to) else {
            return count;
        };
        sources[count] = from as u16;
        add_part(acc, from, 0, n, s, block, scratch);
    }
    most
}
