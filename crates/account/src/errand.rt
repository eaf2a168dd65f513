// One errand, the same on every part: a record is stored, the block next to it is erased, and the record is read in the middle of that.
use crate::record::{self, RECORD};
use part::{Part, Progress, Turn};
use workbench::Trouble;

/// An errand on a part, and where the account of it is printed.
#[derive(Drop)]
pub struct Errand<'a, P> {
    pub rt: &'a HostRuntime,
    pub name: &'static str,
    pub part: P,
    /// The record's first address.
    pub at: u32,
    /// The block that is erased.
    pub block: u32,
}

impl<P: Part> Errand<'_, P> {
    fn spent(&self, since: u32) -> u32 {
        self.part.clock().wrapping_sub(since)
    }

    fn store(&mut self) -> Result<(), Trouble> {
        let since = self.part.clock();
        for (&byte, address) in RECORD.iter().zip(self.at..) {
            self.part.burn(address, byte)?;
        }
        println!(self.rt;
            "  The name of a stop is burnt at {:04X}h, {} bytes in {} us.",
            self.at,
            RECORD.len(),
            self.spent(since)
        )?;
        Ok(())
    }

    fn read_back(&mut self) -> Result<(), Trouble> {
        print!(self.rt; "  Peeked:")?;
        let verdict = if record::read_back(self.rt, self.at, |address| self.part.peek(address))? {
            "the name, whole"
        } else {
            "not the name"
        };
        println!(self.rt; ", {verdict}.")?;
        Ok(())
    }

    fn hold(&mut self) -> Result<(), Trouble> {
        let since = self.part.clock();
        // Words for this line of the account alone, so no `Display` of the answer.
        let done = match self.part.hold() {
            Turn::Done => "held",
            Turn::Nothing => "not held: there is none",
        };
        println!(self.rt; "  The erasure is {done}, after {} us.", self.spent(since))?;
        Ok(())
    }

    // Passes time until the erasure no longer runs.
    fn wait_for_end(&mut self) -> Result<Progress, Trouble> {
        for _ in 0..10_001u32 {
            match self.part.pass(1_000)? {
                Progress::Running => {}
                ended => return Ok(ended),
            }
        }
        Err(Trouble::Late)
    }

    /// The whole errand, with an account of it.
    pub fn run(&mut self) -> Result<(), Trouble> {
        let shape = self.part.shape();
        println!(self.rt;
            "\n{}: {} bytes in {} blocks.",
            self.name, shape.size, shape.blocks
        )?;
        self.store()?;
        self.part.begin(self.block)?;
        println!(self.rt; "  The erasure of block {} begins.", self.block)?;
        self.hold()?;
        self.read_back()?;
        let goes = match self.part.go_on() {
            Turn::Done => "goes on",
            Turn::Nothing => "was not held",
        };
        let since = self.part.clock();
        let ended = self.wait_for_end()?;
        println!(self.rt;
            "  It {goes}; {} us later it is {ended}.",
            self.spent(since)
        )?;
        self.read_back()
    }
}
