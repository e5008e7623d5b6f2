// The gates on shares: what both boxes' shares come to. The definitions stand in specs/, their laws in proofs/.
#![tactic(auto)]

ghost use Rattle.shares.specs.Laws.{NumbersSplit, FlagsSplit, ElementsSplit, HeldIsPlain};
ghost use Rattle.shares.specs.Laws.{SumIsPlain, ScaleIsPlain, XorIsPlain, ProductJoins};
ghost use Rattle.shares.specs.Laws.{CurveMoves, PieceJoins, FlagJoins, ShiftJoins, SignedShiftJoins, ShiftPowers};
ghost use Rattle.shares.specs.Keyed.{AnswersJoin, PieceIsPlain, FlagIsPlain, ShiftIsPlain, SignedShiftIsPlain};

use group::Group;

// What is split between the boxes is made up by their parts.
pub fn splits_join<G: Group>() -> u8
    ensures numbers { NumbersSplit }
    ensures flags { FlagsSplit }
    ensures elements { ElementsSplit G.Group.group }
    ensures held { HeldIsPlain }
{
    0
}

// Sum, scale and xor act on held values and masks as on plain values.
pub fn local_gates_are_plain() -> u8
    ensures sum { SumIsPlain }
    ensures scale { ScaleIsPlain }
    ensures xor { XorIsPlain }
{
    0
}

// Shares of a product, a piece, a flag gate and the shifts join to the plain meaning under the output mask.
pub fn product_joins() -> u8
    ensures { ProductJoins }
{
    0
}

pub fn piece_joins() -> u8
    ensures curve { CurveMoves }
    ensures joins { PieceJoins }
{
    0
}

pub fn flag_joins() -> u8
    ensures { FlagJoins }
{
    0
}

pub fn shifts_join() -> u8
    ensures shift { ShiftJoins }
    ensures signed { SignedShiftJoins }
    ensures powers { ShiftPowers }
{
    0
}

// The same from what the dealer deals: where both boxes' keys join as the comparison says, each keyed gate's shares make
// its plain meaning under the output mask.
pub fn keyed_gates_are_plain<G: Group>() -> u8
    ensures answers { AnswersJoin G.Group.group }
    ensures piece { PieceIsPlain }
    ensures flag { FlagIsPlain }
    ensures shift { ShiftIsPlain }
    ensures signed { SignedShiftIsPlain }
{
    0
}
