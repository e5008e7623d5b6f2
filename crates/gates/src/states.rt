// The states of a gate key, as types that move: a key answers once and is joined once.
ghost use Rattle.std.specs.Prelude.{◌≡◌, ℕ};
ghost use Rattle.masking.specs.Masking.{size};
ghost use Rattle.shares.specs.Local.{sum_of, xor_of};

use group::{Flags, Group, Quad, Word};
use masking::{Masked, Share, Width, xor};
use std::marker::PhantomData;

// A gate key that has answered nothing yet. Answering uses it up: for another answer, deal another gate.
#[derive(Drop)]
pub struct Fresh<K> {
    pub(crate) key: K,
}

impl<K> Fresh<K> {
    pub(crate) fn new(key: K) -> Fresh<K>
        ensures { result.key ≡ key }
    {
        Fresh { key }
    }
}

// A gate key that has answered, with the own share. Only a half can be joined: answer first.
#[derive(Drop)]
pub struct Half<G> {
    pub(crate) width: Width,
    pub(crate) own: Share,
    pub(crate) group: PhantomData<G>,
}

// A gate key whose shares are joined to the wire's held value.
#[derive(Drop)]
pub struct Joined<G> {
    pub(crate) held: Masked,
    pub(crate) group: PhantomData<G>,
}

// How the shares of a gate with answers in this group are joined.
pub trait Shared: Group {
    ghost together: { ℕ → ℕ → ℕ → ℕ };

    fn join_shares(width: Width, own: Share, other: Share) -> Masked
        ensures { result.0 ≡ together (size width) own.0 other.0 };
}

impl Shared for Word {
    ghost together = { sum_of };

    fn join_shares(width: Width, own: Share, other: Share) -> Masked {
        Masked(width.sum(own.0, other.0))
    }
}

// As words are.
impl Shared for Quad {
    ghost together = { sum_of };

    fn join_shares(width: Width, own: Share, other: Share) -> Masked {
        Word::join_shares(width, own, other)
    }
}

impl Shared for Flags {
    ghost together = { λ _ a b. xor_of a b };

    fn join_shares(_width: Width, own: Share, other: Share) -> Masked {
        Masked(xor(own.0, other.0))
    }
}

impl<G> Half<G> {
    pub(crate) fn new(width: Width, own: Share) -> Half<G>
        ensures width { result.width ≡ width }
        ensures own { result.own ≡ own }
    {
        Half {
            width,
            own,
            group: PhantomData,
        }
    }

    // The share that goes to the other box.
    pub fn share(&self) -> Share
        ensures { result ≡ self.now.own }
    {
        self.own
    }
}

impl<G: Shared> Half<G> {
    // Joins the own share with the other box's.
    pub fn join(self, other: Share) -> Joined<G>
        ensures { result.held.0 ≡ G.Shared.together (size self.width) self.own.0 other.0 }
    {
        Joined {
            held: G::join_shares(self.width, self.own, other),
            group: PhantomData,
        }
    }
}

impl<G> Joined<G> {
    pub fn held(self) -> Masked
        ensures { result ≡ self.held }
    {
        self.held
    }
}

// Both boxes' shares of a gate, and what they join to.
#[derive(Clone, Copy)]
pub struct GateAnswers {
    pub share0: Share,
    pub share1: Share,
    pub held: Masked,
}

// Each box's share goes to the other; box 0's join is what both hold then.
pub(crate) fn exchange<G: Shared>(half0: Half<G>, half1: Half<G>) -> GateAnswers
    ensures share0 { result.share0 ≡ half0.own }
    ensures share1 { result.share1 ≡ half1.own }
    ensures held { result.held.0 ≡ G.Shared.together (size half0.width) half0.own.0 half1.own.0 }
{
    let share0 = half0.share();
    let share1 = half1.share();
    let held = half0.join(share1).held();
    GateAnswers {
        share0,
        share1,
        held,
    }
}
