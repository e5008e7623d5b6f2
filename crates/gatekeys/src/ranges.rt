// Parameters of gates that are allowed, so that nothing past them need ask again.
ghost use Rattle.std.specs.Prelude.{◌^◌, ◌<◌, ◌≤◌};

use masking::Width;

// Numbers from `low` to `high`, both within.
#[derive(Clone, Copy)]
pub struct Interval {
    pub(crate) width: Width,
    pub(crate) low: u32,
    pub(crate) high: u32,
    ghost ordered: { low ≤ high },
    ghost fits: { high < 2 ^ width.bits },
}

// A shift by 1 bit or more, and by less than the width.
#[derive(Clone, Copy)]
pub struct Shift {
    pub(crate) width: Width,
    pub(crate) by: u8,
    ghost some: { 1 ≤ by },
    ghost fits: { by < width.bits },
}
