// The quarter round and the rounds that are made of it.
ghost use Rattle.std.specs.Prelude.{◌≡◌, ◌%◌};
ghost use Rattle.standards.specs.Rfc8439.{add_xor_rotate, quarter_round, quarter_round_at, double_round, double_rounds};

// One line of the quarter round: a += b; d ^= a; d <<<= bits.
fn add_xor_rotate(a: u32, b: u32, d: u32, bits: u32) -> (u32, u32)
    ensures { result ≡ add_xor_rotate bits a b d }
{
    let sum = a.wrapping_add(b);
    (sum, (d ^ sum).rotate_left(bits))
}

pub fn quarter_round(a: u32, b: u32, c: u32, d: u32) -> (u32, u32, u32, u32)
    ensures { result ≡ quarter_round a b c d }
{
    let (a, d) = add_xor_rotate(a, b, d, 16);
    let (c, b) = add_xor_rotate(c, d, b, 12);
    let (a, d) = add_xor_rotate(a, b, d, 8);
    let (c, b) = add_xor_rotate(c, d, b, 7);
    (a, b, c, d)
}

// The quarter round on the words x, y, z and w of a state, each counted modulo 16.
pub fn quarter_round_at(state: &mut [u32; 16], x: usize, y: usize, z: usize, w: usize)
    ensures { state.new ≡ quarter_round_at (x % 16) (y % 16) (z % 16) (w % 16) state.old }
{
    let (a, b, c, d) = quarter_round(state[x % 16], state[y % 16], state[z % 16], state[w % 16]);
    state[x % 16] = a;
    state[y % 16] = b;
    state[z % 16] = c;
    state[w % 16] = d;
}

// Stays: four columns and four diagonals, as the standard lists them; a table of places would be no plainer.
fn double_round(state: &mut [u32; 16])
    ensures { state.new ≡ double_round state.old }
{
    quarter_round_at(state, 0, 4, 8, 12);
    quarter_round_at(state, 1, 5, 9, 13);
    quarter_round_at(state, 2, 6, 10, 14);
    quarter_round_at(state, 3, 7, 11, 15);
    quarter_round_at(state, 0, 5, 10, 15);
    quarter_round_at(state, 1, 6, 11, 12);
    quarter_round_at(state, 2, 7, 8, 13);
    quarter_round_at(state, 3, 4, 9, 14);
}

pub fn twenty_rounds(state: &mut [u32; 16])
    ensures { state.new ≡ double_rounds 10 state.old }
{
    for _round in 0..10u32 {
        double_round(state);
    }
}
