// The expander of each kind.
ghost use Rattle.std.specs.Prelude.{⊤};
ghost use Rattle.expander.specs.Meaning.{Expansion};
ghost use Rattle.console.specs.Kinds.{meaning_of};

use aes::Aes128;
use chacha::ChaCha20;
use expander::Expander;
use orders::Kind;
use zero::Zero;

// Something to be done with an expander, whatever its type.
pub trait Task {
    type Done;

    // What may come of it, by the meaning of the expander.
    ghost gives: { Self → Expansion → Self.Done → Type 0 } = { λ _ _ _. ⊤ };

    fn run<X: Expander>(self, expander: &X) -> Self::Done
        ensures { gives self X.Expander.meaning result };
}

// Does a task with the expander of a kind.
pub fn with_expander<T: Task>(kind: Kind, task: T) -> T::Done
    ensures { T.Task.gives task (meaning_of kind) result }
{
    match kind {
        Kind::Aes => task.run(&Aes128),
        Kind::ChaCha => task.run(&ChaCha20),
        Kind::Zero => task.run(&Zero),
    }
}
