// The numbers of the interval rule: threshold, points, counts, and a box's part of an element.
ghost use Rattle.std.specs.Prelude.{◌≡◌};
ghost use Rattle.key.specs.Rows.{is_one};
ghost use Rattle.masking.specs.Masking.{size};
ghost use Rattle.interval.specs.Interval.{threshold, point, after, taken, net, extra};
ghost use Rattle.shares.specs.Splits.{part_of_element};

use gatekeys::Interval;
use group::{Group, difference};
use key::BoxNumber;
use masking::Width;

// Stays: these three are no methods of `Width`, whose crate knows no keys; a trait for them would be no plainer.

// The comparison key's threshold for a mask.
pub fn threshold_for(width: Width, mask: u32) -> u32
    ensures { result ≡ threshold (size width) mask }
{
    width.reduce(u64::from(mask) + (width.size() - 1))
}

// Where the key is asked about an end.
pub fn point_for(width: Width, m: u32, end: u32) -> u32
    ensures { result ≡ point (size width) m end }
{
    width.reduce(u64::from(m) + (width.size() - 1).saturating_sub(u64::from(end)))
}

// The number after an end; after the last one it is 0.
pub fn after_end(width: Width, end: u32) -> u32
    ensures { result ≡ after (size width) end }
{
    width.reduce(u64::from(end) + 1)
}

// An element once, or not at all.
// Stays: a test and an element, as the rule's definitions have them (`taken`, `net`); an Option would be made for one call.
pub fn once<G: Group>(yes: bool, element: G) -> G
    ensures { G.Group.mean result ≡ taken G.Group.group yes (G.Group.mean element) }
{
    yes.then_some(element).unwrap_or(G::zero())
}

// An element once, less once.
pub fn once_less<G: Group>(yes: bool, less: bool, element: G) -> G
    ensures { G.Group.mean result ≡ net G.Group.group yes less (G.Group.mean element) }
{
    difference(once(yes, element), once(less, element))
}

// E: how often the payload is added for numbers that wrap.
pub fn extra_for<G: Group>(interval: Interval, mask: u32, payload: G) -> G
    ensures { G.Group.mean result
        ≡ extra G.Group.group (size interval.width) mask interval.low interval.high (G.Group.mean payload) }
{
    let width = interval.width();
    let low = interval.low();
    let from = width.sum(low, mask);
    let to = width.sum(interval.high(), mask);
    let next = after_end(width, interval.high());
    let past = width.sum(next, mask);
    let wraps = once_less(to < from, low < from, payload);
    let ends = u64::from(to) == width.size() - 1;
    wraps
        .add(once(next < past, payload))
        .add(once(ends, payload))
}

// A box's part of an element: box 1 has what is random, box 0 the difference.
pub fn part_of<G: Group>(number: BoxNumber, all: G, random: G) -> G
    ensures { G.Group.mean result ≡ part_of_element G.Group.group (is_one number) (G.Group.mean all) (G.Group.mean random) }
{
    if number.is_one() {
        random
    } else {
        difference(all, random)
    }
}
