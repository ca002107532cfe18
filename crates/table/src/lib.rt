// The table of checks.
#![tactic(auto)]

ghost use Rattle.std.specs.Prelude.{◌≡◌, ◌+◌, ◌*◌, ◌<◌, ◌≤◌, length, take, drop, unwrap_or, IfOk};
ghost use Rattle.lists.specs.Lists.{all_pass};
ghost use Rattle.refusals.specs.Refusals.{refusal_of};
ghost use Rattle.table.specs.Checks.{Starts, check};
ghost use Rattle.table.specs.LookOver.{weighed};
ghost use Rattle.table.specs.PacketCall.{packet_refusal, part_at, packet_part, part_start};
ghost use Rattle.table.specs.Table.{places, size, number, weights, total, cut_up, rising, beyond_limits, bad_lengths, bad_places, refusal};
ghost use Rattle.table.specs.Table.{outside as is_outside, beyond as is_beyond};

mod accepted;

pub use accepted::{Located, Table};
use refusals::Refusal;

// ---- the table

// the limits
pub const MOST_PLACES: usize = 1024;

pub const MOST_BYTES: usize = 1024;

pub const MOST_CHECKS: usize = 512;

pub const MOST_WEIGHT: usize = 64;

pub const MOST_ONES: usize = 6144;

// the most words: 5 + 512 + 6,144
pub const MOST_WORDS: usize = 6661;

// the words of a work buffer: 512 checks of 1,024 bits
pub const WORK_WORDS: usize = 8192;

// below 1 or above most
pub fn outside(most: usize, x: usize) -> bool
    ensures { result ≡ is_outside most x }
{
    if x == 0 {
        return true;
    }
    most < x
}

// n, s or m beyond its limits
pub fn beyond(n: usize, s: usize, m: usize) -> bool
    ensures { result ≡ is_beyond n s m }
{
    if outside(MOST_PLACES, n) {
        return true;
    }
    if outside(MOST_BYTES, s) {
        return true;
    }
    MOST_CHECKS < m
}

// cause 2
fn beyond_limits(t: &[u16]) -> bool
    requires { 5 ≤ length t.now }
    ensures { result ≡ beyond_limits t.now }
{
    if t[0] != 2 {
        return true;
    }
    beyond(usize::from(t[1]), usize::from(t[2]), usize::from(t[3]))
}

// so many words from one on
pub fn run(t: &[u16], at: usize, count: usize) -> &[u16]
    requires { at + count ≤ length t.now }
    ensures { result.now ≡ take count (drop at t.now) }
{
    let end = at + count;
    &t[at..end]
}

// the sum of weights, if none is over 64
fn weigh(weights: &[u16]) -> Option<usize>
    requires { length weights.now ≤ 512 }
    ensures { unwrap_or result 65536 ≡ weighed weights.now }
{
    let mut sum = 0;
    for w in weights {
        let w = usize::from(*w);
        if MOST_WEIGHT < w {
            return None;
        }
        sum += w;
    }
    Some(sum)
}

// cause 3
fn bad_lengths(t: &[u16]) -> bool
    requires { (5 ≤ length t.now)
        × (number t.now ≤ 512) }
    ensures { result ≡ bad_lengths t.now }
{
    let m = usize::from(t[3]);
    if t.len() < 5 + m {
        return true;
    }
    let ones = usize::from(t[4 + m]);
    if MOST_ONES < ones {
        return true;
    }
    let Some(sum) = weigh(run(t, 4, m)) else {
        return true;
    };
    if ones != sum {
        return true;
    }
    t.len() != 5 + m + ones
}

// places ascend below n: the last tells whether all are below
fn rises(places: &[u16], n: usize) -> bool
    ensures { result ≡ rising n 0 places.now }
{
    let mut low = 0;
    for p in places {
        let p = usize::from(*p);
        if p < low {
            return false;
        }
        low = p + 1;
    }
    low <= n
}

// the places of each of m checks ascend below n
fn all_rise(t: &[u16], m: usize, n: usize) -> bool
    requires { 5 + m + total (take m (drop 4 t.now)) ≤ length t.now }
    ensures { result ≡ all_pass (rising n 0) (cut_up (take m (drop 4 t.now)) (drop (5 + m) t.now)) }
{
    let mut at = 5 + m;
    for j in 0..m {
        let w = usize::from(t[4 + j]);
        if !rises(run(t, at, w), n) {
            return false;
        }
        at += w;
    }
    true
}

// cause 4
fn bad_places(t: &[u16]) -> bool
    requires { 5 + number t.now + total (weights t.now) ≤ length t.now }
    ensures { result ≡ bad_places t.now }
{
    let n = usize::from(t[1]);
    let m = usize::from(t[3]);
    !all_rise(t, m, n)
}

// the first cause that refuses the table, if there is one
pub fn look_over(t: &[u16]) -> Result<(), Refusal>
    ensures { refusal_of result ≡ refusal t.now }
{
    if t.len() < 5 {
        return Err(Refusal::ShortTable);
    }
    if beyond_limits(t) {
        return Err(Refusal::Limits);
    }
    if bad_lengths(t) {
        return Err(Refusal::Lengths);
    }
    if bad_places(t) {
        return Err(Refusal::Places);
    }
    Ok(())
}

impl<'a> Table<'a> {
    // the table of some words, unless a cause refuses them
    pub fn new(words: &'a [u16]) -> Result<Self, Refusal>
        ensures refusal { refusal_of result ≡ refusal words.now }
        ensures words { IfOk result (λ t. t.words ≡ words.entry) }
    {
        look_over(words)?;
        Ok(Table {
            words,
            checks: usize::from(words[3]),
            places: usize::from(words[1]),
            size: usize::from(words[2]),
        })
    }
}

impl<'a> Located<'a> {
    // the places of check j
    pub fn check(&self, j: usize) -> &'a [u16]
        requires { j < self.now.table.checks }
        ensures { result.now ≡ check self.now.table.words.now self.now.table.checks j }
    {
        let start = usize::from(self.starts[j]);
        let weight = usize::from(self.table.words[4 + j]);
        run(self.table.words, start, weight)
    }
}

// where the places of each check start
pub fn fill_starts(table: &Table, starts: &mut [u16])
    requires { table.now.checks ≤ length starts.old }
    ensures { Starts table.now.words.now table.now.checks starts.new }
{
    let mut at = 5 + table.checks;
    for j in 0..table.checks {
        starts[j] = at as u16;
        at += usize::from(table.words[4 + j]);
    }
}

// ---- the packet call

// what refuses a packet call over a block of len bytes, if anything does
pub fn look_at_place(n: usize, s: usize, place: usize, len: usize) -> Result<(), Refusal>
    ensures { refusal_of result ≡ packet_refusal n s place len }
{
    if outside(MOST_PLACES, n) {
        return Err(Refusal::Limits);
    }
    if outside(MOST_BYTES, s) {
        return Err(Refusal::Limits);
    }
    let bytes = n * s;
    if len != bytes {
        return Err(Refusal::Buffer);
    }
    if n <= place {
        return Err(Refusal::NoPlace);
    }
    Ok(())
}

// the packet at a place
pub fn part(block: &[u8], place: usize, s: usize) -> &[u8]
    requires { place * s + s ≤ length block.now }
    ensures { (result.now ≡ part_at s place block.now)
        × (result.ref_ptr ≡ (block.entry.ref_ptr.0, place * s + block.entry.ref_ptr.1)) }
{
    let start = place * s;
    let end = start + s;
    &block[start..end]
}

// the packet at a place, or the empty part
pub fn packet_part(n: usize, s: usize, place: usize, block: &[u8]) -> &[u8]
    ensures { (result.now ≡ packet_part n s place block.now)
        × (result.ref_ptr ≡ (block.entry.ref_ptr.0, part_start n s place (length block.now) + block.entry.ref_ptr.1)) }
{
    match look_at_place(n, s, place, block.len()) {
        Ok(()) => part(block, place, s),
        Err(_) => &block[..0],
    }
}

// the answer of a packet call: the packet, or a refusal and the empty part
#[derive(Drop)]
pub struct Packet<'a> {
    pub look: Result<(), Refusal>,
    pub part: &'a [u8],
}

pub fn packet_call<'a>(n: usize, s: usize, place: usize, block: &'a [u8]) -> Packet<'a>
    ensures { (refusal_of result.look ≡ packet_refusal n s place (length block.now))
        × (result.part.now ≡ packet_part n s place block.now)
        × (result.part.ref_ptr ≡ (block.entry.ref_ptr.0, part_start n s place (length block.now) + block.entry.ref_ptr.1)) }
{
    Packet {
        look: look_at_place(n, s, place, block.len()),
        part: packet_part(n, s, place, block),
    }
}
