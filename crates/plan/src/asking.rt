// The questions about a plan, each over the whole plan before the next.
ghost use Rattle.std.specs.Prelude.{◌≡◌, ◌+◌, ◌≤◌, length};
ghost use Rattle.refusal.specs.Questions.{answered};
ghost use Rattle.plan.specs.Plans.{stated, words_of_rows};
ghost use Rattle.plan.specs.Questions.{owners_fit, reads_fit_from, fields_fit, all_fields_fit, plan_asks};

use crate::{Gate, GateBody, Plan, PlanRow, below};
use refusal::Refusal;

// Is each owner 0 or 1?
fn owners_fit(owners: &[u8]) -> bool
    ensures { result ≡ owners_fit owners.now }
{
    owners.iter().all(|owner| *owner < 2)
}

// Does each gate read lower wires of the right kind?
fn all_reads_fit(plan: Plan) -> bool
    requires { length plan.owners.now ≤ 16 }
    ensures { result ≡ reads_fit_from (stated plan.entry) (length plan.entry.owners.now) plan.entry.rows.now }
{
    let inputs = plan.owners.len();
    plan.rows
        .iter()
        .enumerate()
        .all(|(i, row)| row.body.reads_fit(&plan, inputs + i))
}

// Are a gate's numbers and its coefficients below N, p at most q, and the shift allowed?
fn fields_fit(width: u8, body: GateBody) -> bool
    ensures { result ≡ fields_fit width body }
{
    body.numbers_fit(width)
        && match body {
            Gate::Piece { c, .. } => c.iter().all(|number| below(width, *number)),
            _ => true,
        }
}

fn all_fields_fit(width: u8, rows: &[PlanRow]) -> bool
    ensures { result ≡ all_fields_fit width rows.now }
{
    rows.iter().all(|row| fields_fit(width, row.body))
}

// The random words of all gates.
fn words_of_rows(rows: &[PlanRow]) -> usize
    requires { length rows.now ≤ 32 }
    ensures count { result ≡ words_of_rows rows.now }
    ensures few { result ≤ 448 }
{
    rows.iter().map(|row| row.body.words()).sum()
}

// The questions 1 to 6 about a plan that is dealt to box `number` from so many random words.
// Stays: any number is asked about here and refused, so the box is a byte; the plan, the box and the words come from the
// caller one by one.
pub fn check_plan(plan: Plan, number: u8, words: usize) -> Result<(), Refusal>
    ensures { result ≡ answered (plan_asks (stated plan.entry) number words) tt }
{
    let inputs = plan.owners.len();
    let gates = plan.rows.len();
    Refusal::ask(plan.width >= 1 && plan.width <= 32, Refusal::PlanWidth)?;
    Refusal::ask(
        inputs >= 1 && inputs <= 16 && gates >= 1 && gates <= 32,
        Refusal::PlanCounts,
    )?;
    Refusal::ask(number < 2 && owners_fit(plan.owners), Refusal::PlanOwners)?;
    Refusal::ask(all_reads_fit(plan), Refusal::PlanReads)?;
    Refusal::ask(all_fields_fit(plan.width, plan.rows), Refusal::PlanFields)?;
    Refusal::ask(
        inputs + words_of_rows(plan.rows) <= words,
        Refusal::DealWords,
    )
}
