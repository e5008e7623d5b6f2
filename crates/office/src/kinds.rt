// The number that stands for a kind of expander in books.
ghost use Rattle.std.specs.Prelude.{◌≡◌};
ghost use Rattle.office.specs.Kinds.{kind_number};

use console::{Task, with_expander};
use expander::Expander;
use orders::Kind;

// To name an expander's number.
#[derive(Clone, Copy)]
struct Number;

impl Task for Number {
    type Done = u8;

    ghost gives = { λ _ meaning number. number ≡ meaning.kind };

    fn run<X: Expander>(self, _expander: &X) -> u8 {
        X::KIND
    }
}

pub fn kind_number(kind: Kind) -> u8
    ensures { result ≡ kind_number kind }
{
    with_expander(kind, Number)
}
