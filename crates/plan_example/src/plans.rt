// The example's plans: the connection's limit of two parks, and small ones.
use anyhow::Result;
use office::Office;

// An example that is shown: each line as it would be typed in, and what is answered.
#[derive(Drop)]
pub struct Example<'a> {
    rt: &'a HostRuntime,
    office: Office,
}

impl<'a> Example<'a> {
    pub fn new(rt: &'a HostRuntime) -> Example<'a> {
        Example {
            rt,
            office: Office::new(rt),
        }
    }

    // Says something, and carries out lines.
    // Stays: `wukraslo` does the same with a session; a trait for both would be longer than this loop.
    fn show(&mut self, text: &str, lines: &[&str]) -> Result<()> {
        println!(self.rt; "{text}")?;
        for line in lines {
            println!(self.rt; "> {line}")?;
            self.office.perform(self.rt, line.as_bytes())?;
        }
        Ok(())
    }

    // Wires 0 to 2: both parks' feed-in and their sum.
    fn limit(&mut self) -> Result<()> {
        self.show(
            "The connection's limit of two parks as a plan, at width 16, in units of 10 kW. The limit is 40 MW, or 4000.",
            &[],
        )?;
        self.show(
            "Wires 0 and 1 are the planned feed-in of park 0 and park 1, each put in by its own box; wire 2 is their sum:",
            &["plan 16 0,1", "hidden sum 0 1"],
        )
    }

    // Wire 3.
    fn excess(&mut self) -> Result<()> {
        self.show(
            "Wire 3 is the excess: v - 4000 from 4001 on, otherwise 0. The number 61536 stands for -4000:",
            &["hidden piece 2 4001 65535 61536,1,0,0"],
        )
    }

    // Wires 4 and 5.
    fn first_park(&mut self) -> Result<()> {
        self.show(
            "Park 0 cuts back five eighths of the excess, rounded up: 5 v + 7, shifted by 3 bits. Wire 5 is shown:",
            &["hidden scale 3 5 7", "shown shift 4 3"],
        )
    }

    // Wires 6 and 7.
    fn second_park(&mut self) -> Result<()> {
        self.show(
            "Park 1 cuts back the rest, the excess less wire 5. Wire 7 is shown:",
            &["hidden scale 5 65535 0", "shown sum 3 6"],
        )
    }

    // Wires 8 to 10.
    fn alarms(&mut self) -> Result<()> {
        self.show(
            "Alarm flags: 1 above the limit, and 2 as well above 44 MW. Wire 10 is shown:",
            &[
                "hidden flag 2 4001 65535 1",
                "hidden flag 2 4401 65535 2",
                "shown xor 8 9",
            ],
        )
    }

    fn random_words(&mut self) -> Result<()> {
        self.show(
            "So with 30 MW and 25 MW park 0 cuts back 9.38 MW, park 1 5.62 MW, and both flags rise.",
            &[],
        )?;
        self.show(
            "The plan takes 42 random words: one for each input's mask, then 14, 10, 8 and 8 for the gates with keys:",
            &[
                "words 101,102,103,104,105,106,107,108,109,110,111,112,113,114,115,116,117,118,119,120,121",
                "words 122,123,124,125,126,127,128,129,130,131,132,133,134,135,136,137,138,139,140,141,142",
            ],
        )
    }

    fn books_in_outline(&mut self) -> Result<()> {
        self.show(
            "Both books in outline. Each box is given the masks of its own input and of the shown wires, and its own keys:",
            &["outline 1 2026"],
        )
    }

    fn small_plan(&mut self) -> Result<()> {
        self.show(
            "A small plan with all of its bytes: one input of box 0, and a shown scale, 3 v + 1:",
            &["plan 8 0", "shown scale 0 3 1", "words 200", "books 1 7"],
        )
    }

    fn reading(&mut self) -> Result<()> {
        self.show(
            "Box 1 reads its book. A box with another kind of expander refuses it, and any box where a number is not below 256:",
            &[
                "book 1 01010108070000000101000031000000200000000100000021000000100000000002000001580000000300000001000000",
                "book 2 01010108070000000101000031000000200000000100000021000000100000000002000001580000000300000001000000",
                "book 1 01010108070000000101000031000000200000000100000021000000100000000002000001580000000300000000010000",
            ],
        )
    }

    fn square(&mut self) -> Result<()> {
        self.show(
            "The square of an input takes five random words; with four it is refused:",
            &[
                "plan 8 0",
                "shown product 0 0",
                "words 1,2,3,4",
                "books 1 1",
                "words 5",
                "books 1 1",
            ],
        )
    }

    pub fn plans(&mut self) -> Result<()> {
        self.limit()?;
        self.excess()?;
        self.first_park()?;
        self.second_park()?;
        self.alarms()?;
        self.random_words()?;
        self.books_in_outline()?;
        self.small_plan()?;
        self.reading()?;
        self.square()
    }
}
