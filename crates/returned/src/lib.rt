// Deals that are read: every book that is dealt passes a box's questions, and reads back to what was dealt.
#![tactic(auto)]

ghost use Rattle.std.specs.Prelude.{◌≡◌, OnOk};
ghost use Rattle.plan.specs.Plans.{stated};
ghost use Rattle.dealer.specs.Book.{order};
ghost use Rattle.returned.specs.Returned.{Returned, DealtIsRead, dealt_and_checked};

use dealer::deal;
use expander::Expander;
use plan::Plan;
use reader::check_book;
use refusal::Refusal;

// Deals the book of box `number`, and asks about it as a box does that has the expander X. Nothing is refused but another
// kind of expander; the book reads back to what was dealt.
// Stays: the box is a byte, since `deal` is asked about any.
pub fn deal_and_check<D: Expander, X: Expander>(
    dealer: &D,
    plan: Plan,
    number: u8,
    deal_number: u32,
    words: &[u64],
    out: &mut [u8],
) -> Result<usize, Refusal>
    ensures book { (result, out.new) ≡ dealt_and_checked D.Expander.meaning X.Expander.meaning.kind
        (order (stated plan.entry) number deal_number words.now)
        out.old }
    ensures returned { OnOk result (Returned D.Expander.meaning
        (order (stated plan.entry) number deal_number words.now)) }
{
    let long = deal(dealer, plan, number, deal_number, words, out)?;
    check_book(X::KIND, &out[0..long])?;
    Ok(long)
}

// Each book that is dealt passes every question, and reads back to what was dealt.
pub fn dealt_books_are_read() -> u8
    ensures { DealtIsRead }
{
    0
}
