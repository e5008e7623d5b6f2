// The benchmark program: checksums alone, or with the argument `time` the time of each workload too.
#![tactic(auto)]

ghost use Rattle.std.specs.Prelude.{◌≡◌, ◌+◌, ◌*◌, ◌<◌, ℕ, true, map, length, slice_index, bit_xor};
ghost use Rattle.dealing.specs.Dealing.{dealt_rows, dealt_last, start};
ghost use Rattle.evaluation.specs.Evaluation.{evaluated};
ghost use Rattle.joining.specs.Joining.{dealt_answer};
ghost use Rattle.key.specs.Rows.{row_mean};
ghost use Rattle.bench.specs.Workloads.{level, levels, place, root, sum_of};

use aes::Aes128;
use chacha::ChaCha20;
use dealing::deal;
use evaluation::answer;
use expander::{Expander, Seed};
use gatekeys::root_from;
use group::{Group, Pair, Quad, Word, low_half};
use key::{BoxNumber, KeyEnds, Roots, Row, Rows};
use std::env;
use std::time::Instant;
use tables::blank;

const LEVELS: u32 = 200000;

const KEYS: u32 = 2000;

// One level: branch and draw. The next seed is the left seed XOR the first two words that the left value seed draws.
fn level<X: Expander>(expander: &X, seed: Seed) -> Seed
    ensures { result ≡ level X.Expander.meaning seed }
{
    let b = expander.branch(seed);
    let words = expander.draw(b.left.value);
    b.left.seed.xor(root_from(words[0], words[1]))
}

// A chain of levels.
fn levels<X: Expander>(expander: &X, first: Seed, count: u32) -> Seed
    ensures { result ≡ levels X.Expander.meaning count first }
{
    (0..count).fold(first, |seed, _| level(expander, seed))
}

// The bytes first, 1, 2 and so on.
fn root(first: u8) -> Seed
    ensures { result ≡ root first }
{
    Seed {
        bytes: [first, 1, 2, 3, 4, 5, 6, 7, 8, 9, 10, 11, 12, 13, 14, 15],
    }
}

// The threshold or point number i.
fn place(i: u32) -> u32
    ensures { result ≡ place i }
{
    i.wrapping_mul(2654435761)
}

fn deal_one<X: Expander, G: Group>(
    expander: &X,
    threshold: u32,
    payload: G,
    memory: &mut [Row<G>],
) -> G
    ensures last { G.Group.mean result
        ≡ dealt_last X.Expander.meaning G.Group.group (G.Group.mean payload) threshold (length memory.old)
        (start G.Group.group (root 0) (root 16)) }
    ensures rows { map (row_mean G.Group.mean) memory.new
        ≡ dealt_rows X.Expander.meaning G.Group.group (G.Group.mean payload) threshold (length memory.old)
        (start G.Group.group (root 0) (root 16)) }
{
    let roots = Roots {
        zero: root(0),
        one: root(16),
    };
    deal(expander, threshold, payload, roots, &mut Rows::over(memory))
}

// Deals keys, each with another threshold, one over the other; the sum of the final elements.
fn deal_keys<X: Expander, G: Group>(
    expander: &X,
    payload: G,
    count: u32,
    memory: &mut [Row<G>],
) -> G
    ensures { G.Group.mean result
        ≡ sum_of G.Group.group (λ i. dealt_last X.Expander.meaning G.Group.group (G.Group.mean payload) (place i)
        (length memory.old) (start G.Group.group (root 0) (root 16))) count }
{
    // Stays: a fold was tried; its proof didn't close, since its closure writes to the memory at each turn.
    let mut all = G::zero();
    for i in 0..count {
        all = all.add(deal_one(expander, place(i), payload, memory));
    }
    all
}

// Evaluates a key at many points, at box 1; the sum of the answers.
fn evaluate_rows<X: Expander, G: Group>(expander: &X, rows: &[Row<G>], last: G, count: u32) -> G
    ensures { G.Group.mean result
        ≡ sum_of G.Group.group (λ i. evaluated X.Expander.meaning G.Group.group G.Group.mean true (root 16)
        rows.now last (place i)) count }
{
    let ends = KeyEnds {
        root: root(16),
        last,
    };
    (0..count).fold(G::zero(), |all, i| {
        all.add(answer(expander, BoxNumber::One, ends, rows, place(i)))
    })
}

// Deals one key into the memory and evaluates it at many points.
fn evaluate_key<X: Expander, G: Group>(
    expander: &X,
    payload: G,
    count: u32,
    memory: &mut [Row<G>],
) -> G
    ensures { G.Group.mean result
        ≡ sum_of G.Group.group (λ i. dealt_answer G.Group.group X.Expander.meaning X.Expander.meaning (length memory.old)
        3000000000 (G.Group.mean payload) (root 0) (root 16) true (root 16) (place i)) count }
{
    let last = deal_one(expander, 3000000000, payload, memory);
    evaluate_rows(expander, memory, last, count)
}

// An element as one number: the XOR of its words.
trait Checksum {
    ghost checksum: { Self → ℕ };

    fn checksum(self) -> u64
        ensures { result ≡ checksum self };
}

impl Checksum for Word {
    ghost checksum = { λ w. w.0 };

    fn checksum(self) -> u64 {
        self.0
    }
}

impl<L: Checksum, R: Checksum> Checksum for Pair<L, R> {
    ghost checksum = { λ p. bit_xor (L.Checksum.checksum p.left) (R.Checksum.checksum p.right) };

    fn checksum(self) -> u64 {
        self.left.checksum() ^ self.right.checksum()
    }
}

// A seed's first four bytes, the highest first.
fn seed_sum(s: Seed) -> u32
    ensures { result ≡ ((slice_index s.bytes 0 * 256 + slice_index s.bytes 1) * 256 + slice_index s.bytes 2) * 256
        + slice_index s.bytes 3 }
{
    u32::from_be_bytes([s.bytes[0], s.bytes[1], s.bytes[2], s.bytes[3]])
}

// Where the workloads' lines are printed, and whether with their times.
#[derive(Clone, Copy)]
struct Bench<'a> {
    rt: &'a HostRuntime,
    with_time: bool,
}

impl Bench<'_> {
    // Runs one workload, and prints its checksum and the time of each of its units.
    fn report<W: FnOnce() -> u32>(&self, name: &str, units: u32, workload: W) -> anyhow::Result<()>
        requires some { 0 < units }
        requires callable { W.IsAlwaysCallable workload }
    {
        let start = Instant::now(self.rt)?;
        let sum = workload();
        let nanos = start.elapsed(self.rt)?.as_nanos();
        if self.with_time {
            println!(self.rt; "rattle {name} {} {sum:08x}", nanos / units as u128)?;
        } else {
            println!(self.rt; "{name} {sum:08x}")?;
        }
        Ok(())
    }

    // A chain of levels.
    fn levels<X: Expander>(&self, name: &str, expander: &X) -> anyhow::Result<()> {
        self.report(name, LEVELS, || seed_sum(levels(expander, root(0), LEVELS)))
    }

    // Keys that are dealt, and one that is evaluated.
    // Stays: the memory is the caller's, who knows the group: the size of `[Row<G>; 32]` has no bound here.
    fn keys<X: Expander, G: Group + Checksum>(
        &self,
        deals: &str,
        evaluates: &str,
        expander: &X,
        payload: G,
        memory: &mut [Row<G>],
    ) -> anyhow::Result<()> {
        self.report(deals, KEYS, || {
            low_half(deal_keys(expander, payload, KEYS, memory).checksum())
        })?;
        self.report(evaluates, KEYS, || {
            low_half(evaluate_key(expander, payload, KEYS, memory).checksum())
        })
    }
}

fn main(rt: HostRuntime) -> anyhow::Result<()> {
    let with_time = env::args(&rt)?.any(|word| word.as_str() == "time");
    let bench = Bench { rt: &rt, with_time };
    let quad = Quad::from([1, 2, 3, 4]);
    bench.levels("level", &Aes128)?;
    bench.levels("clevel", &ChaCha20)?;
    bench.keys(
        "deal-words",
        "evaluate-words",
        &Aes128,
        Word(1),
        &mut [blank(); 32],
    )?;
    bench.keys(
        "deal-quad",
        "evaluate-quad",
        &Aes128,
        quad,
        &mut [blank(); 32],
    )?;
    bench.keys(
        "cdeal-words",
        "cevaluate-words",
        &ChaCha20,
        Word(1),
        &mut [blank(); 32],
    )?;
    bench.keys(
        "cdeal-quad",
        "cevaluate-quad",
        &ChaCha20,
        quad,
        &mut [blank(); 32],
    )
}
