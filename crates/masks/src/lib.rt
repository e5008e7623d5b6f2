// The random words of a plan's wires, and the mask of every wire.
#![tactic(auto)]

ghost use Rattle.std.specs.Prelude.{◌≡◌, ◌+◌, ◌≤◌, length, slice_index};
ghost use Rattle.plan.specs.Plans.{stated};
ghost use Rattle.layout.specs.Bytes.{front};
ghost use Rattle.masks.specs.Masks.{gate_mask, wire_mask, masks};

use group::low_half;
use layout::after;
use masking::{Width, xor};
use plan::{GateBody, Plan, PlanWire};
use std::array;

// A random word; 0 past the last.
// Stays: at a word what `bodies` has at a byte; a clause for any type by its default would be no plainer than `slice_index`.
fn word_in(words: &[u64], i: usize) -> u64
    ensures { result ≡ slice_index words.now i }
{
    words.get(i).copied().unwrap_or(0)
}

// As many random words as a gate takes; 0 past the last.
pub fn words_from<const K: usize>(words: &[u64]) -> [u64; K]
    ensures { result ≡ front K words.now }
{
    array::from_fn(|i| word_in(words, i))
}

// A wire's mask in the table.
// Stays: no heap in a box, so the masks are a table of fixed size; one function for this and `word_in` would need a clause by
// the default of a type, which is no plainer.
pub fn mask_in(masks: &[u32; 48], wire: usize) -> u32
    ensures { result ≡ slice_index masks.now wire }
{
    masks.get(wire).copied().unwrap_or(0)
}

// A gate's mask, from those below it and its first random word.
fn gate_mask(width: Width, masks: &[u32; 48], word: u64, body: GateBody) -> u32
    ensures { result ≡ gate_mask width.bits masks.now word body }
{
    match body {
        GateBody::Sum { a, b } => width.sum(mask_in(masks, a as usize), mask_in(masks, b as usize)),
        GateBody::Scale { a, c, .. } => width.scale_mask(c, mask_in(masks, a as usize)),
        GateBody::Product { .. }
        | GateBody::Piece { .. }
        | GateBody::Shift { .. }
        | GateBody::SignedShift { .. } => width.reduce(word),
        GateBody::Flag { .. } => low_half(word),
        GateBody::Xor { a, b } => xor(mask_in(masks, a as usize), mask_in(masks, b as usize)),
    }
}

fn wire_mask(width: Width, masks: &[u32; 48], word: u64, wire: PlanWire) -> u32
    ensures { result ≡ wire_mask width.bits masks.now word wire }
{
    match wire {
        PlanWire::Input { .. } => width.reduce(word),
        PlanWire::Gate(row) => gate_mask(width, masks, word, row.body),
    }
}

// The masks of all wires. Each wire takes its random words from the front of what the wires below it leave.
// Stays: a plan and a width; a CheckedPlan would ask more of callers than the masks need, and no function may come to ask
// more.
pub fn masks_of(width: Width, plan: Plan, words: &[u64]) -> [u32; 48]
    requires { (length plan.owners.now + length plan.rows.now ≤ 48) × (plan.width ≡ width.bits) }
    ensures { result ≡ masks (stated plan.entry) words.now }
{
    let mut masks = [0; 48];
    let mut left = words;
    // Stays: each mask is made from those below it in the same table, which no iterator can hold meanwhile.
    for k in 0..plan.wires() {
        let wire = plan.wire(k);
        let mask = wire_mask(width, &masks, word_in(left, 0), wire);
        masks[k] = mask;
        left = after(left, wire.words());
    }
    masks
}
