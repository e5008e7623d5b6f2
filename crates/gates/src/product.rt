// The product gate.
ghost use Rattle.std.specs.Prelude.{◌≡◌};
ghost use Rattle.refusal.specs.Questions.{answered};
ghost use Rattle.key.specs.Rows.{is_one};
ghost use Rattle.masking.specs.Masking.{size};
ghost use Rattle.comparison.specs.Comparison.{answer_mean};
ghost use Rattle.shares.specs.Product.{product_share};
ghost use Rattle.gates.specs.Questions.{numbers_of, held_of, product_asks};
ghost use Rattle.gates.specs.Product.{dealt_product, product_numbers, product_held};

use crate::questions::ask_product;
use crate::states::{Fresh, GateAnswers, Half, exchange};
use gatekeys::ProductGate;
use gatemath::{number_part, product_share};
use group::Word;
use key::BoxNumber;
use keyform::ProductParts;
use masking::{Masked, Share, Width};
use refusal::Refusal;

// One box's key of a product: its parts of both masks, and of their product plus the output mask.
#[derive(Drop)]
pub struct ProductKey {
    pub(crate) number: BoxNumber,
    pub(crate) width: Width,
    pub(crate) parts: ProductParts,
}

// Deals one box's key of a product.
pub fn deal_product(number: BoxNumber, gate: &ProductGate) -> Fresh<ProductKey>
    ensures { result.key ≡ dealt_product number gate.now.width gate.now.mask_a gate.now.mask_b gate.now.words }
{
    let width = gate.width;
    let [out, a, b, c] = gate.words;
    let mask_a = u64::from(gate.mask_a);
    let mask_b = u64::from(gate.mask_b);
    let product = mask_a * mask_b + u64::from(width.reduce(out));
    Fresh::new(ProductKey {
        number,
        width,
        parts: ProductParts {
            a: number_part(width, number, mask_a, a),
            b: number_part(width, number, mask_b, b),
            c: number_part(width, number, product, c),
        },
    })
}

impl Fresh<ProductKey> {
    // What a box is given, for a book or a reader: its parts A, B and C.
    pub fn parts(&self) -> ProductParts
        ensures { result ≡ self.now.key.parts }
    {
        self.key.parts
    }

    // A box's share at the held values m and k. The key is used up.
    pub fn answer_product(self, m: Masked, k: Masked) -> Half<Word>
        ensures share { result.own.0 ≡ product_share (is_one self.key.number) (size self.key.width) m.0 k.0
            self.key.parts.a self.key.parts.b self.key.parts.c }
        ensures width { result.width ≡ self.key.width }
    {
        let ProductKey {
            number,
            width,
            parts: ProductParts { a, b, c },
        } = self.key;
        Half::new(
            width,
            Share(product_share(number, width, m.0, k.0, a, b, c)),
        )
    }
}

// Deals a product, answers at both boxes at the held values m and k, and joins the shares: the join is the product of the
// plain values plus the output mask.
pub fn product_gate(gate: &ProductGate, m: Masked, k: Masked) -> Result<GateAnswers, Refusal>
    ensures numbers { answer_mean numbers_of result
        ≡ answered (product_asks gate.now.width.bits gate.now.mask_a gate.now.mask_b m.0 k.0)
        (product_numbers gate.now.width gate.now.mask_a gate.now.mask_b gate.now.words m.0 k.0) }
    ensures joins { answer_mean held_of result
        ≡ answered (product_asks gate.now.width.bits gate.now.mask_a gate.now.mask_b m.0 k.0)
        (product_held gate.now.width gate.now.mask_a gate.now.mask_b gate.now.words m.0 k.0) }
{
    ask_product(gate, m, k)?;
    let half0 = deal_product(BoxNumber::Zero, gate).answer_product(m, k);
    let half1 = deal_product(BoxNumber::One, gate).answer_product(m, k);
    Ok(exchange(half0, half1))
}
