// The interval rule, once for every output group.
ghost use Rattle.std.specs.Prelude.{◌≡◌, ◌+◌, ◌≤◌, map, length};
ghost use Rattle.key.specs.Rows.{row_mean};
ghost use Rattle.dealing.specs.Dealing.{dealt_rows, start};
ghost use Rattle.gates.specs.Interval.{roots_at, ends_mean, dealt_ends, interval_key_mean, key_at, interval_answer, key_of, rows_of};

use crate::states::Fresh;
use dealing::deal;
use evaluation::answer;
use expander::Expander;
use gatekeys::{Interval, root_from};
use gatemath::{after_end, extra_for, once_less, part_of, point_for, threshold_for};
use group::{Group, difference};
use key::{BoxNumber, KeyEnds, Roots, Row, Rows};
use keyform::IntervalParts;

// One box's key for an interval, but for the rows, which stand in the caller's table.
#[derive(Drop)]
pub struct IntervalKey<G> {
    pub(crate) number: BoxNumber,
    pub(crate) interval: Interval,
    pub(crate) parts: IntervalParts<G>,
}

impl<G: Group> IntervalKey<G> {
    // The comparison key's answer at a point.
    fn at<X: Expander>(&self, expander: &X, rows: &[Row<G>], point: u32) -> G
        ensures { G.Group.mean result
            ≡ key_at X.Expander.meaning G.Group.group G.Group.mean self.now rows.now point }
    {
        answer(expander, self.number, self.parts.ends, rows, point)
    }

    // A box's answer at the held value m.
    pub(crate) fn answer_at<X: Expander>(&self, expander: &X, rows: &[Row<G>], m: u32) -> G
        ensures { G.Group.mean result
            ≡ interval_answer X.Expander.meaning G.Group.group G.Group.mean self.now rows.now m }
    {
        let width = self.interval.width();
        let low = self.interval.low();
        let next = after_end(width, self.interval.high());
        let at_low = self.at(expander, rows, point_for(width, m, low));
        let at_next = self.at(expander, rows, point_for(width, m, next));
        difference(once_less(low < m, next < m, self.parts.payload), at_low)
            .add(at_next)
            .add(self.parts.extra)
    }
}

// Deals one box's comparison key from both roots: its rows into the table, and its ends.
pub(crate) fn deal_ends<X: Expander, G: Group>(
    expander: &X,
    number: BoxNumber,
    threshold: u32,
    payload: G,
    roots: Roots,
    rows: &mut Rows<G>,
) -> KeyEnds<G>
    ensures ends { ends_mean G.Group.mean result
        ≡ dealt_ends X.Expander.meaning G.Group.group number threshold (G.Group.mean payload) roots (length rows.old.rows.now) }
    ensures rows { map (row_mean G.Group.mean) rows.new.rows.now
        ≡ dealt_rows X.Expander.meaning G.Group.group (G.Group.mean payload) threshold (length rows.old.rows.now)
        (start G.Group.group roots.zero roots.one) }
    ensures same { rows.new.rows.ghost_name ≡ rows.old.rows.ghost_name }
{
    let last = deal(expander, threshold, payload, roots, rows);
    KeyEnds {
        root: roots.of(number),
        last,
    }
}

// Both roots in the four random words from word i on, box 0's first.
pub(crate) fn roots_at(words: &[u64], i: usize) -> Roots
    requires { i + 4 ≤ length words.now }
    ensures { result ≡ roots_at words.now i }
{
    Roots {
        zero: root_from(words[i], words[i + 1]),
        one: root_from(words[i + 2], words[i + 3]),
    }
}

// What the dealer draws for a key: both roots, and box 1's parts of the payload and of E.
#[derive(Clone, Copy)]
pub struct IntervalDraws<G> {
    pub roots: Roots,
    pub payload1: G,
    pub extra1: G,
}

// What both boxes' keys of a gate on an interval are dealt from.
#[derive(Clone, Copy)]
pub struct IntervalDeal<G> {
    pub interval: Interval,
    pub mask: u32,
    pub payload: G,
    pub draws: IntervalDraws<G>,
}

impl<G: Group> IntervalDeal<G> {
    // Deals one box's key: its rows into the table, the rest as the fresh key. `out` is the box's part of the output mask.
    pub(crate) fn key<X: Expander>(
        self,
        expander: &X,
        number: BoxNumber,
        out: u32,
        rows: &mut Rows<G>,
    ) -> Fresh<IntervalKey<G>>
        ensures key { interval_key_mean G.Group.mean result.key
            ≡ key_of X.Expander.meaning G.Group.group G.Group.mean self number out (length rows.old.rows.now) }
        ensures rows { map (row_mean G.Group.mean) rows.new.rows.now
            ≡ rows_of X.Expander.meaning G.Group.group G.Group.mean self (length rows.old.rows.now) }
        ensures same { rows.new.rows.ghost_name ≡ rows.old.rows.ghost_name }
    {
        let IntervalDeal {
            interval,
            mask,
            payload,
            draws,
        } = self;
        let threshold = threshold_for(interval.width(), mask);
        let ends = deal_ends(expander, number, threshold, payload, draws.roots, rows);
        let extra = extra_for(interval, mask, payload);
        Fresh::new(IntervalKey {
            number,
            interval,
            parts: IntervalParts {
                ends,
                payload: part_of(number, payload, draws.payload1),
                extra: part_of(number, extra, draws.extra1),
                out,
            },
        })
    }
}

impl<G: Group> Fresh<IntervalKey<G>> {
    // What a box is given, for a book or a reader.
    pub fn parts(&self) -> IntervalParts<G>
        ensures { result ≡ self.now.key.parts }
    {
        self.key.parts
    }
}
