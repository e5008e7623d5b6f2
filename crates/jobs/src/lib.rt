// Gates as they are ordered on the console: the job that an order asks for, or why it is refused.
#![tactic(auto)]

ghost use Rattle.std.specs.Prelude.{◌≡◌};
ghost use Rattle.gatekeys.specs.Parameters.{view_answer};
ghost use Rattle.jobs.specs.Jobs.{job_view, body_answer, job_answer};

use gatekeys::{FlagGate, Interval, PieceGate, ProductGate, Shift, ShiftGate, Sign};
use masking::Width;
use orders::{GateBody, GateOrder};
use refusal::Refusal;

// A gate that a box works out alone.
#[derive(Clone, Copy)]
pub enum LocalJob {
    Sum {
        width: Width,
        mask: u32,
        mask2: u32,
    },
    Scale {
        width: Width,
        mask: u32,
        c: u32,
        d: u32,
    },
    Xor {
        width: Width,
        mask: u32,
        mask2: u32,
    },
}

// A gate as it was ordered, with its parameters allowed and its masks below N.
#[derive(Clone, Copy)]
pub enum Job {
    Piece(PieceGate),
    Flag(FlagGate),
    Shift(ShiftGate),
    Product(ProductGate),
    Local(LocalJob),
}

// The job of a gate's body at an allowed width.
fn body_job(width: Width, body: GateBody) -> Result<Job, Refusal>
    ensures { view_answer job_view result ≡ body_answer width.bits body }
{
    match body {
        GateBody::Piece {
            mask,
            low,
            high,
            coefficients,
            words,
        } => Ok(Job::Piece(PieceGate {
            interval: Interval::new(width, low, high)?,
            mask: width.reduce(u64::from(mask)),
            coefficients,
            words,
        })),
        GateBody::Flag {
            mask,
            low,
            high,
            pattern,
            words,
        } => Ok(Job::Flag(FlagGate {
            interval: Interval::new(width, low, high)?,
            mask: width.reduce(u64::from(mask)),
            pattern,
            words,
        })),
        GateBody::Shift { mask, by, words } => Ok(Job::Shift(ShiftGate {
            sign: Sign::Unsigned,
            shift: Shift::new(width, by)?,
            mask: width.reduce(u64::from(mask)),
            words,
        })),
        GateBody::Signed { mask, by, words } => Ok(Job::Shift(ShiftGate {
            sign: Sign::Signed,
            shift: Shift::new(width, by)?,
            mask: width.reduce(u64::from(mask)),
            words,
        })),
        GateBody::Product { mask, mask2, words } => Ok(Job::Product(ProductGate {
            width,
            mask_a: width.reduce(u64::from(mask)),
            mask_b: width.reduce(u64::from(mask2)),
            words,
        })),
        GateBody::Sum { mask, mask2 } => Ok(Job::Local(LocalJob::Sum {
            width,
            mask: width.reduce(u64::from(mask)),
            mask2: width.reduce(u64::from(mask2)),
        })),
        GateBody::Scale { mask, c, d } => Ok(Job::Local(LocalJob::Scale {
            width,
            mask: width.reduce(u64::from(mask)),
            c,
            d,
        })),
        GateBody::Xor { mask, mask2 } => Ok(Job::Local(LocalJob::Xor { width, mask, mask2 })),
    }
}

// The job that an order asks for: the width is asked first, then the parameters.
pub fn job_of(order: &GateOrder) -> Result<Job, Refusal>
    ensures { view_answer job_view result ≡ job_answer order.now }
{
    body_job(Width::new(order.width)?, order.body)
}
