// Unsigned numbers of 8, 32 and 64 bits, as words write them.
ghost use Rattle.std.specs.Prelude.{◌≡◌, ℕ, ◌≤◌};

pub trait Number: Drop {
    // The largest number.
    ghost MOST: { ℕ };

    // A number as the type holds it.
    ghost held: { ℕ → Self };

    const MOST: u64;

    fn hold(number: u64) -> Self
        requires { number ≤ MOST }
        ensures { result ≡ held number };
}

impl Number for u8 {
    ghost MOST = { 255 };

    ghost held = { λ number. number };

    const MOST: u64 = u8::MAX as u64;

    fn hold(number: u64) -> u8 {
        number as u8
    }
}

impl Number for u32 {
    ghost MOST = { 4294967295 };

    ghost held = { λ number. number };

    const MOST: u64 = u32::MAX as u64;

    fn hold(number: u64) -> u32 {
        number as u32
    }
}

impl Number for u64 {
    ghost MOST = { 18446744073709551615 };

    ghost held = { λ number. number };

    const MOST: u64 = u64::MAX;

    fn hold(number: u64) -> u64 {
        number
    }
}
