// The account as it is printed.
use crate::stopped::Stopped;
use script::{Reply, Step, push_line, push_total};
use std::alloc::Global;
use std::io::{BufWriter, Write};

/// The account of a script: its lines are written as they come, and counted.
#[derive(Drop)]
pub struct Sheet<'a, W: Write + Drop> {
    heap: Global,
    text: &'a [u8],
    out: BufWriter<W>,
    line: Vec<u8>,
    calls: u64,
    same: u64,
}

impl<'a, W: Write + Drop> Sheet<'a, W> {
    /// An account with no line yet, of a script of this text.
    pub fn new(heap: Global, text: &'a [u8], out: W) -> Result<Sheet<'a, W>, Stopped> {
        Ok(Sheet {
            heap,
            text,
            out: BufWriter::new(heap, out)?,
            line: Vec::new(heap),
            calls: 0,
            same: 0,
        })
    }

    /// One more line.
    pub fn add(&mut self, step: &Step, quick: Reply, slow: Reply) -> Result<(), Stopped> {
        let words = self.text.get(step.start..step.end).unwrap_or(&[]);
        self.line.clear();
        let same = push_line(self.heap, &mut self.line, words, quick, slow)?;
        self.out.write_all(self.line.as_slice())?;
        self.calls = self.calls.saturating_add(1);
        self.same = self.same.saturating_add(u64::from(same));
        Ok(())
    }

    /// The last line: how many calls there were, and how many were answered the same.
    pub fn end(&mut self) -> Result<(), Stopped> {
        self.line.clear();
        push_total(self.heap, &mut self.line, self.calls, self.same)?;
        self.out.write_all(self.line.as_slice())?;
        Ok(self.out.flush()?)
    }
}
