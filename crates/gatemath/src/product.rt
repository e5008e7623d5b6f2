// A box's share of a product.
ghost use Rattle.std.specs.Prelude.{◌≡◌};
ghost use Rattle.key.specs.Rows.{is_one};
ghost use Rattle.masking.specs.Masking.{size};
ghost use Rattle.shares.specs.Product.{product_share};

use crate::splits::number_if;
use key::BoxNumber;
use masking::Width;

// Stays: a, b and c are a struct in keyform, which has bytes and no arithmetic; a second one here would be no plainer.

// C − m × B − k × A, to which box 1 adds m × k.
pub fn product_share(number: BoxNumber, width: Width, m: u32, k: u32, a: u32, b: u32, c: u32) -> u32
    ensures { result ≡ product_share (is_one number) (size width) m k a b c }
{
    let mb = width.scale_mask(m, b);
    let ka = width.scale_mask(k, a);
    let mk = width.reduce(number_if(number.is_one(), u64::from(m) * u64::from(k)));
    let size = width.size();
    width.reduce(u64::from(c) + u64::from(mk) + (size - u64::from(mb)) + (size - u64::from(ka)))
}
