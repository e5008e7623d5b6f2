// Comparison keys: the calls that deal a key, evaluate it and join both answers, with the questions that they ask first.
#![tactic(auto)]

ghost use Rattle.std.specs.Prelude.{◌≡◌, true, false, List, length};
ghost use Rattle.std.specs.List.{list_all};
ghost use Rattle.refusal.specs.Questions.{answered};
ghost use Rattle.key.specs.Rows.{row_mean, is_one};
ghost use Rattle.evaluation.specs.Evaluation.{evaluated};
ghost use Rattle.dealing.specs.Dealing.{start, dealt_rows, dealt_last};
ghost use Rattle.comparison.specs.Questions.{is_in_range, key_asks, compare_asks, asked_all};
ghost use Rattle.comparison.specs.Comparison.{answer_mean, both_answers, answers_mean, joined_mean, RowsAfter};
ghost use Rattle.joining.specs.Joining.{compared};

use dealing::deal;
use evaluation::answer;
use expander::Expander;
use group::Group;
use joining::join;
use key::{BoxNumber, KeyEnds, Roots, Row, Rows};
use refusal::Refusal;

// Whether a number is below 2^width.
fn in_range(number: u32, width: u8) -> bool
    ensures { result ≡ is_in_range width number }
{
    width >= 32 || number < 1u32 << width
}

// Whether all of these numbers are.
fn all_in_range(numbers: &[u32], width: u8) -> bool
    ensures { result ≡ list_all (is_in_range width) numbers.now }
{
    numbers.iter().all(|number| in_range(*number, width))
}

// The questions of a key, in their order; the numbers are its threshold, its point, or both.
fn ask_key<G: Group>(width: u8, numbers: &[u32], rows: &Rows<G>) -> Result<(), Refusal>
    ensures { result ≡ asked_all width (list_all (is_in_range width) numbers.now) (length rows.now.rows.now) G.Group.group.count }
{
    Refusal::ask((1..=32).contains(&width), Refusal::KeyWidth)?;
    Refusal::ask(all_in_range(numbers, width), Refusal::KeyRange)?;
    Refusal::ask(rows.count() == width as usize, Refusal::KeyRows)?;
    Refusal::ask(G::words() <= 8, Refusal::KeyWords)
}

// Deals a key with this threshold and payload into the table, and returns the final element.
pub fn deal_key<X: Expander, G: Group>(
    expander: &X,
    width: u8,
    threshold: u32,
    payload: G,
    roots: Roots,
    rows: &mut Rows<G>,
) -> Result<G, Refusal>
    ensures answer { answer_mean G.Group.mean result
        ≡ answered (key_asks width threshold (length rows.old.rows.now) G.Group.group.count)
        (dealt_last X.Expander.meaning G.Group.group (G.Group.mean payload) threshold width (start G.Group.group roots.zero roots.one)) }
    ensures rows { RowsAfter G.Group.mean result rows.old.rows.now rows.new.rows.now
        (dealt_rows X.Expander.meaning G.Group.group (G.Group.mean payload) threshold width (start G.Group.group roots.zero roots.one)) }
    ensures same { rows.new.rows.ghost_name ≡ rows.old.rows.ghost_name }
{
    ask_key(width, &[threshold], rows)?;
    Ok(deal(expander, threshold, payload, roots, rows))
}

// A box's answer at a point, from its root and what both boxes hold in common.
pub fn evaluate<X: Expander, G: Group>(
    expander: &X,
    number: BoxNumber,
    width: u8,
    ends: KeyEnds<G>,
    rows: &Rows<G>,
    point: u32,
) -> Result<G, Refusal>
    ensures { answer_mean G.Group.mean result
        ≡ answered (key_asks width point (length rows.now.rows.now) G.Group.group.count)
        (evaluated X.Expander.meaning G.Group.group G.Group.mean (is_one number) ends.root rows.now.rows.now ends.last point) }
{
    ask_key(width, &[point], rows)?;
    Ok(answer(expander, number, ends, rows.as_slice(), point))
}

// Both boxes' answers, and what they join to.
#[derive(Clone, Copy)]
pub struct Answers<G> {
    pub answer0: G,
    pub answer1: G,
    pub joined: G,
}

// Both boxes evaluate, each from its own root, and the answers are joined.
fn answer_both<X: Expander, Y: Expander, G: Group>(
    box0: &X,
    box1: &Y,
    roots: Roots,
    rows: &[Row<G>],
    last: G,
    point: u32,
) -> Answers<G>
    ensures zero { G.Group.mean result.answer0
        ≡ evaluated X.Expander.meaning G.Group.group G.Group.mean false roots.zero rows.now last point }
    ensures one { G.Group.mean result.answer1
        ≡ evaluated Y.Expander.meaning G.Group.group G.Group.mean true roots.one rows.now last point }
    ensures sum { G.Group.mean result.joined ≡ G.Group.group.sum (G.Group.mean result.answer0) (G.Group.mean result.answer1) }
{
    let ends0 = KeyEnds {
        root: roots.zero,
        last,
    };
    let ends1 = KeyEnds {
        root: roots.one,
        last,
    };
    let answer0 = answer(box0, BoxNumber::Zero, ends0, rows, point);
    let answer1 = answer(box1, BoxNumber::One, ends1, rows, point);
    Answers {
        answer0,
        answer1,
        joined: join(answer0, answer1),
    }
}

// A dealer and two boxes, each with an expander of its own: deals one key, evaluates it at both boxes, and joins the
// answers. Where the three expanders have one meaning and kind, the join is the comparison of the point with the
// threshold.
pub fn compare<D: Expander, X: Expander, Y: Expander, G: Group>(
    dealer: &D,
    box0: &X,
    box1: &Y,
    width: u8,
    threshold: u32,
    payload: G,
    roots: Roots,
    rows: &mut Rows<G>,
    point: u32,
) -> Result<Answers<G>, Refusal>
    ensures answers { answer_mean (answers_mean G.Group.mean) result
        ≡ answered (compare_asks width threshold point (length rows.old.rows.now) G.Group.group.count)
        (both_answers G.Group.group D.Expander.meaning X.Expander.meaning Y.Expander.meaning
        width threshold (G.Group.mean payload) roots.zero roots.one point) }
    ensures joins { D.Expander.meaning ≡ X.Expander.meaning → D.Expander.meaning ≡ Y.Expander.meaning
        → answer_mean (joined_mean G.Group.mean) result
        ≡ answered (compare_asks width threshold point (length rows.old.rows.now) G.Group.group.count)
        (compared G.Group.group threshold (G.Group.mean payload) point) }
    ensures rows { RowsAfter G.Group.mean result rows.old.rows.now rows.new.rows.now
        (dealt_rows D.Expander.meaning G.Group.group (G.Group.mean payload) threshold width (start G.Group.group roots.zero roots.one)) }
    ensures same { rows.new.rows.ghost_name ≡ rows.old.rows.ghost_name }
{
    ask_key(width, &[threshold, point], rows)?;
    let last = deal(dealer, threshold, payload, roots, rows);
    Ok(answer_both(box0, box1, roots, rows.as_slice(), last, point))
}
