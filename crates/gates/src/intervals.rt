// Gates on one interval, which answer a payload inside it and nothing elsewhere: dealing, answering and joining, once for
// every such gate.
ghost use Rattle.std.specs.Prelude.{◌≡◌, ℕ, Bool, map, length};
ghost use Rattle.refusal.specs.Questions.{answered};
ghost use Rattle.expander.specs.Meaning.{Expansion};
ghost use Rattle.key.specs.Rows.{row_mean, is_one};
ghost use Rattle.masking.specs.Masking.{size};
ghost use Rattle.comparison.specs.Comparison.{answer_mean, RowsAfter};
ghost use Rattle.gates.specs.declared.interval_key.IntervalDeal.{IntervalDeal};
ghost use Rattle.gates.specs.Interval.{interval_answer, fresh_mean, key_of, rows_of, IntervalLaws};
ghost use Rattle.gates.specs.Questions.{row_asks, gate_asks, numbers_of, held_of};

use crate::interval_key::{IntervalDeal, IntervalKey};
use crate::questions::{ask_gate, ask_rows};
use crate::states::{Fresh, GateAnswers, Half, Shared, exchange};
use expander::Expander;
use group::Group;
use key::{BoxNumber, Rows};
use masking::{Masked, Share, Width};
use refusal::Refusal;

// A gate on one interval, with answers in this group.
pub trait IntervalGate<G: Shared> {
    // What its keys are dealt from, and a box's part of the output mask.
    ghost deal: { Self → IntervalDeal G };

    ghost out_part: { Self → Bool → ℕ };

    // What is known of its numbers.
    ghost allowed: { Self → Type 0 };

    // A box's share, from N, the held value, the answer, and the box's part of the output mask.
    ghost share: { ℕ → ℕ → G → ℕ → ℕ };

    // Both boxes' shares with what they join to, and the held value that they are to join to.
    ghost numbers: { Expansion → Expansion → Expansion → Self → ℕ → ℕ × ℕ × ℕ };

    ghost held: { Self → ℕ → ℕ };

    fn deal(&self) -> IntervalDeal<G>
        ensures deal { result ≡ deal self.now }
        ensures allowed { allowed self.now };

    // The box's part of the output mask.
    fn out_part(&self, number: BoxNumber) -> u32
        ensures { result ≡ out_part self.now (is_one number) };

    // A box's share of an answer at the held value m.
    fn share(width: Width, m: Masked, answer: G, out: u32) -> Share
        ensures { result.0 ≡ share (size width) m.0 answer out };

    ghost laws: { IntervalLaws G.Group.group G.Group.mean G.Shared.together share deal out_part allowed numbers held };
}

// One box's key of a gate: the rows into the table, the rest as the fresh key.
fn interval_key<X: Expander, G: Shared, T: IntervalGate<G>>(
    expander: &X,
    number: BoxNumber,
    gate: &T,
    rows: &mut Rows<G>,
) -> Fresh<IntervalKey<G>>
    ensures key { fresh_mean G.Group.mean result ≡ key_of X.Expander.meaning G.Group.group G.Group.mean (T.deal gate.now)
        number (T.out_part gate.now (is_one number)) (length rows.old.rows.now) }
    ensures rows { map (row_mean G.Group.mean) rows.new.rows.now
        ≡ rows_of X.Expander.meaning G.Group.group G.Group.mean (T.deal gate.now) (length rows.old.rows.now) }
    ensures same { rows.new.rows.ghost_name ≡ rows.old.rows.ghost_name }
{
    gate.deal()
        .key(expander, number, gate.out_part(number), rows)
}

// Deals one box's key of a gate, where the table has as many rows as the width; else refusal 43.
pub fn deal_interval<X: Expander, G: Shared, T: IntervalGate<G>>(
    expander: &X,
    number: BoxNumber,
    gate: &T,
    rows: &mut Rows<G>,
) -> Result<Fresh<IntervalKey<G>>, Refusal>
    ensures key { let n = (T.deal gate.now).interval.width.bits in
        answer_mean (fresh_mean G.Group.mean) result
        ≡ answered (row_asks (length rows.old.rows.now) n)
        (key_of X.Expander.meaning G.Group.group G.Group.mean (T.deal gate.now) number (T.out_part gate.now (is_one number)) n) }
    ensures rows { RowsAfter G.Group.mean result rows.old.rows.now rows.new.rows.now
        (rows_of X.Expander.meaning G.Group.group G.Group.mean (T.deal gate.now) (T.deal gate.now).interval.width.bits) }
    ensures same { rows.new.rows.ghost_name ≡ rows.old.rows.ghost_name }
{
    ask_rows(gate.deal().interval.width(), rows.count())?;
    Ok(interval_key(expander, number, gate, rows))
}

impl<G: Shared> Fresh<IntervalKey<G>> {
    // A box's share of a gate at the held value m. The key is used up.
    pub fn answer<X: Expander, T: IntervalGate<G>>(
        self,
        expander: &X,
        rows: &Rows<G>,
        m: Masked,
    ) -> Half<G>
        ensures share { (answer : G)
            × (G.Group.mean answer
            ≡ interval_answer X.Expander.meaning G.Group.group G.Group.mean self.key rows.now.rows.now m.0)
            × (result.own.0 ≡ T.share (size self.key.interval.width) m.0 answer self.key.parts.out) }
        ensures width { result.width ≡ self.key.interval.width }
    {
        let width = self.key.interval.width();
        let answer = self.key.answer_at(expander, rows.as_slice(), m.0);
        Half::new(width, T::share(width, m, answer, self.key.parts.out))
    }
}

// Stays: `dealer, box0, box1` and `rows0, rows1`: structs of references, made at each call and taken apart here, are no
// plainer.

// A dealer and two boxes, each with an expander of its own: deals a gate, answers at both boxes at the held value m, and
// joins the shares. Where the three expanders have one meaning and kind, the join is the plain meaning under the output
// mask.
pub fn interval_gate<D: Expander, X: Expander, Y: Expander, G: Shared, T: IntervalGate<G>>(
    dealer: &D,
    box0: &X,
    box1: &Y,
    gate: &T,
    rows0: &mut Rows<G>,
    rows1: &mut Rows<G>,
    m: Masked,
) -> Result<GateAnswers, Refusal>
    ensures numbers { answer_mean numbers_of result
        ≡ answered (gate_asks (T.deal gate.now).interval.width.bits (T.deal gate.now).mask m.0
        (length rows0.old.rows.now) (length rows1.old.rows.now))
        (T.numbers D.Expander.meaning X.Expander.meaning Y.Expander.meaning gate.now m.0) }
    ensures joins { D.Expander.meaning ≡ X.Expander.meaning → D.Expander.meaning ≡ Y.Expander.meaning
        → answer_mean held_of result
        ≡ answered (gate_asks (T.deal gate.now).interval.width.bits (T.deal gate.now).mask m.0
        (length rows0.old.rows.now) (length rows1.old.rows.now)) (T.held gate.now m.0) }
    ensures rows0 { RowsAfter G.Group.mean result rows0.old.rows.now rows0.new.rows.now
        (rows_of D.Expander.meaning G.Group.group G.Group.mean (T.deal gate.now) (T.deal gate.now).interval.width.bits) }
    ensures rows1 { RowsAfter G.Group.mean result rows1.old.rows.now rows1.new.rows.now
        (rows_of D.Expander.meaning G.Group.group G.Group.mean (T.deal gate.now) (T.deal gate.now).interval.width.bits) }
{
    let IntervalDeal { interval, mask, .. } = gate.deal();
    ask_gate(interval.width(), mask, m, rows0.count(), rows1.count())?;
    let key0 = interval_key(dealer, BoxNumber::Zero, gate, rows0);
    let key1 = interval_key(dealer, BoxNumber::One, gate, rows1);
    let half0 = key0.answer::<X, T>(box0, rows0, m);
    let half1 = key1.answer::<Y, T>(box1, rows1, m);
    Ok(exchange(half0, half1))
}
