// The steps of the day, each with what is seen.
use crate::record::{self, RECORD};
use crate::watch::Watch;
use chip::Chip;
use workbench::Trouble;

// The record is kept at the beginning of block 1.
const RECORD_AT: u32 = 0x400;
// The neighbour, block 2, which is erased.
const NEIGHBOUR: u32 = 0x600;

/// A chip on the bench, and where the account of it is printed.
#[derive(Drop)]
pub struct Bench<'a> {
    pub rt: &'a HostRuntime,
    pub chip: Chip,
}

impl Bench<'_> {
    pub fn describe(&self) -> Result<(), Trouble> {
        println!(self.rt;
            "The chip on the bench has {} bytes in {} blocks.",
            self.chip.size(),
            self.chip.blocks()
        )?;
        for (number, block) in self.chip.table().iter().enumerate() {
            println!(self.rt;
                "  Block {number:>2} begins at {:04X}h and has {:>4} bytes.",
                block.start, block.size
            )?;
        }
        Ok(())
    }

    /// ID mode: the maker, and the kind of chip.
    pub fn identify(&mut self) -> Result<(), Trouble> {
        workbench::command(&mut self.chip, 0x90)?;
        let maker = self.chip.read(0)?;
        let device = self.chip.read(1)?;
        println!(self.rt;
            "\nAsked who it is, it gives {maker:02X}h (the maker, Toshiba) and {device:02X}h (the kind of chip)."
        )?;
        Ok(())
    }

    /// ID mode again, once in each block: is it protected?
    pub fn find_guards(&mut self) -> Result<(), Trouble> {
        println!(self.rt; "Asked which blocks are protected:")?;
        for (number, block) in self.chip.table().iter().enumerate() {
            let guard = self.chip.read(block.start | 2)?;
            if guard == 1 {
                println!(self.rt;
                    "  Block {number} answers {guard:02X}h: nobody can write there."
                )?;
            }
        }
        workbench::command(&mut self.chip, 0xF0)?;
        println!(self.rt; "  All others answer 00h. Then back to reading.")?;
        Ok(())
    }

    fn tell(&self, address: u32, seen: Watch) -> Result<(), Trouble> {
        println!(self.rt; "  {address:04X}h: {seen}.")?;
        Ok(())
    }

    /// Programs the record byte by byte, and sees by the status bits when each is done.
    pub fn store_record(&mut self) -> Result<(), Trouble> {
        println!(self.rt; "\nA stop's name is stored at the beginning of block 1:")?;
        for (&byte, address) in RECORD.iter().zip(RECORD_AT..) {
            let seen = self.program(address, byte)?;
            self.tell(address, seen)?;
        }
        Ok(())
    }

    pub fn try_protected(&mut self) -> Result<(), Trouble> {
        println!(self.rt;
            "\nThe same in the protected block 0 is soon over, and the cell stays FFh:"
        )?;
        let seen = self.program(0, 0x41)?;
        self.tell(0, seen)
    }

    /// Something old in block 2, so that its erase can be seen.
    pub fn spoil_neighbour(&mut self) -> Result<(), Trouble> {
        println!(self.rt; "\nBlock 2 holds an old setting:")?;
        let seen = self.program(NEIGHBOUR, 0x00)?;
        self.tell(NEIGHBOUR, seen)
    }

    fn two_reads(&mut self, when: &str) -> Result<(), Trouble> {
        let (first, second) = self.read_twice(NEIGHBOUR)?;
        println!(self.rt; "  {when}: {first:02X}h, {second:02X}h.")?;
        Ok(())
    }

    pub fn start_erase(&mut self) -> Result<(), Trouble> {
        println!(self.rt; "\nBlock 2 is to be erased. Two reads of the status, three times over:")?;
        workbench::erase(&mut self.chip, NEIGHBOUR)?;
        self.two_reads("in the window, where more blocks could be added")?;
        self.chip.pass(50)?;
        self.two_reads("50 us later, the erasing has begun")?;
        self.chip.pass(300)?;
        self.two_reads("300 us later, it goes on")
    }

    pub fn suspend(&mut self) -> Result<(), Trouble> {
        println!(self.rt; "\nThe organist presses Next. The erase is suspended:")?;
        self.chip.write(NEIGHBOUR, 0xB0)?;
        let seen = self.follow(NEIGHBOUR, 1)?;
        self.tell(NEIGHBOUR, seen)?;
        println!(self.rt; "  The toggle bit stands still, so block 1 can be read.")?;
        Ok(())
    }

    /// Reads the record cell by cell, and says whether each is what was stored.
    pub fn read_record(&mut self) -> Result<(), Trouble> {
        print!(self.rt; "\nBlock 1 reads")?;
        let verdict = if record::read_back(self.rt, RECORD_AT, |address| self.chip.read(address))? {
            "just what was stored"
        } else {
            "not what was stored"
        };
        println!(self.rt; ": {verdict}.")?;
        Ok(())
    }

    pub fn finish_erase(&mut self) -> Result<(), Trouble> {
        println!(self.rt; "\nThe erase goes on with what was left, and is watched to its end:")?;
        self.chip.write(NEIGHBOUR, 0x30)?;
        let seen = self.follow(NEIGHBOUR, 50)?;
        self.tell(NEIGHBOUR, seen)?;
        let verdict = if seen.failed { "failed" } else { "done" };
        println!(self.rt; "  The erase is {verdict}.")?;
        Ok(())
    }

    pub fn total(&self) -> Result<(), Trouble> {
        println!(self.rt; "\nThe whole day took {} microseconds.", self.chip.clock())?;
        Ok(())
    }
}
