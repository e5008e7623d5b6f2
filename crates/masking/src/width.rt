// A width that is allowed, so that nothing past it need ask again.
ghost use Rattle.std.specs.Prelude.{◌≤◌};

#[derive(Clone, Copy)]
pub struct Width {
    pub(crate) bits: u8,
    ghost least: { 1 ≤ bits },
    ghost most: { bits ≤ 32 },
}
