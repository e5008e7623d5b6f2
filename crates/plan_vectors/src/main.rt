// Runs the lines about plans and books on its input; stdin and stdout are tables that tests/vectors.py makes by an independent calculation.
#![tactic(auto)]

use office::run;
use std::io;

// Stays: `vectors` has the same lines, since a program is a `main` of its own.
fn main(rt: HostRuntime) -> io::Result<()> {
    run(&rt)?;
    Ok(())
}
