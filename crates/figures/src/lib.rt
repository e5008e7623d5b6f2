// The worked figures, as one table with one theorem.
#![tactic(auto)]

ghost use Rattle.std.specs.Prelude.{◌≡◌, length};
ghost use Rattle.figures.specs.Figures.{figures, Holds, Each};

// Every worked figure holds, for every expander, all roots and all random words. The answer is their number.
pub fn figures_hold() -> usize
    ensures hold { Each Holds figures }
    ensures count { result ≡ length figures }
{
    22
}
