// The program: carries out the orders on its input, or without input a built-in example.
#![tactic(auto)]

use anyhow::Result;
use console::{Session, run};

const ROOTS: &str = "000102030405060708090a0b0c0d0e0f 101112131415161718191a1b1c1d1e1f";

// What is said of a gate, the line that deals it, and the line that works it at held values.
const GATES: [(&str, &str, &str); 8] = [
    (
        "A piece: 5 + 3 v for v from 2 to 13. The mask is 10, so the held value 0 is the plain value 6:",
        "gate 1 piece 4 10 2 13 5,3,0,0 21,22,23,24,25,26,27,28,29,30,31,32,33,34",
        "hold 0",
    ),
    (
        "A flag gate: pattern 5 in the upper half. Mask 7, plain value 12:",
        "gate 2 flag 4 7 8 15 5 41,42,43,44,45,46,47,48",
        "hold 3",
    ),
    (
        "A shift by 2 bits. Mask 11, plain value 13:",
        "gate 1 shift 4 11 2 51,52,53,54,55,56,57,58,59,60",
        "hold 8",
    ),
    (
        "A signed shift by 2 bits. Mask 11, plain value 13, which counts as -3; rounded down that is -1, or 15:",
        "gate 2 signed 4 11 2 61,62,63,64,65,66,67,68,69,70",
        "hold 8",
    ),
    (
        "A product. Masks 3 and 5, plain values 4 and 6:",
        "gate 1 product 4 3 5 2,71,72,73",
        "hold 7 11",
    ),
    (
        "A sum, worked by each box alone, on held values and on masks:",
        "gate 1 sum 4 3 5",
        "hold 7 11",
    ),
    (
        "A scale: 3 v + 4. The 4 goes into the held value only:",
        "gate 1 scale 4 3 3 4",
        "hold 7",
    ),
    (
        "An xor of two flag wires, masks 3 and 5:",
        "gate 1 xor 4 3 5",
        "hold 7 11",
    ),
];

// An example that is shown: each line as it would be typed in, and what is answered.
#[derive(Clone, Copy)]
struct Example<'a> {
    rt: &'a HostRuntime,
    session: Session,
}

impl Example<'_> {
    fn perform(&mut self, line: &str) -> Result<()> {
        println!(self.rt; "> {line}")?;
        self.session.perform(self.rt, line.as_bytes())?;
        Ok(())
    }

    // Says something, and carries out lines.
    // Stays: `plan_example` does the same with an office; a trait for both would be longer than this loop.
    fn show(&mut self, text: &str, lines: &[&str]) -> Result<()> {
        println!(self.rt; "{text}")?;
        for line in lines {
            self.perform(line)?;
        }
        Ok(())
    }

    // The same with one line, to which the roots of a key are added.
    fn show_key(&mut self, text: &str, start: &str) -> Result<()> {
        println!(self.rt; "{text}")?;
        let line = format!(in self.rt.alloc(); "{start} {ROOTS}")?;
        self.perform(line.as_str())
    }

    fn points(&mut self) -> Result<()> {
        self.show(
            "Both boxes answer below, at and above the threshold, and the answers are joined:",
            &["at 4", "at 5", "at 6"],
        )
    }

    fn keys(&mut self) -> Result<()> {
        self.show(
            "A comparison, split into two keys: payload 1 below threshold 5, at width 3.",
            &[],
        )?;
        self.show_key(
            "Kind 1, AES-128. Each box gets its root; rows and final element are common:",
            "deal 1 words 3 5 1",
        )?;
        self.points()?;
        self.show_key("The same with kind 2, ChaCha20:", "deal 2 words 3 5 1")?;
        self.points()?;
        self.show_key(
            "A threshold out of range is refused, and the last key stays:",
            "deal 2 words 3 8 1",
        )?;
        self.perform("at 4")
    }

    fn gates(&mut self) -> Result<()> {
        self.show(
            "Gates on masked numbers, at width 4: both boxes' shares join to the plain meaning plus the output mask.",
            &[],
        )?;
        for (text, deal, hold) in GATES {
            self.show(text, &[deal, hold])?;
        }
        Ok(())
    }
}

fn main(rt: HostRuntime) -> Result<()> {
    if run(&rt)? {
        return Ok(());
    }
    let mut example = Example {
        rt: &rt,
        session: Session::new(),
    };
    example.keys()?;
    example.gates()
}
