// Tables of rows before they are dealt.
#![tactic(auto)]

ghost use Rattle.std.specs.Prelude.{◌≡◌};
ghost use Rattle.key.specs.Rows.{row_mean};
ghost use Rattle.tables.specs.Tables.{blank_row};

use expander::Seed;
use group::Group;
use key::Row;

// A row of zeros.
pub fn blank<G: Group>() -> Row<G>
    ensures { row_mean G.Group.mean result ≡ blank_row G.Group.group }
{
    Row {
        word: Seed { bytes: [0; 16] },
        left: false,
        right: false,
        element: G::zero(),
    }
}
