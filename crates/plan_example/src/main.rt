// The plans' program: carries out the lines on its input, or without input deals and reads the books of built-in plans.
#![tactic(auto)]

use office::run;

mod plans;

use plans::Example;

fn main(rt: HostRuntime) -> anyhow::Result<()> {
    if run(&rt)? {
        return Ok(());
    }
    Example::new(&rt).plans()
}
