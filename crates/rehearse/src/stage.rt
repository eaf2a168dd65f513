// The two consoles, and the steps of a script on them.
use crate::sheet::Sheet;
use crate::stopped::Stopped;
use console::Console;
use part::Part;
use rehearsal::{Row, Seats, rehearse};
use runner::list_of;
use script::{Reply, Request, Step};
use std::alloc::Global;
use std::io;

// The quick console and the slow one, over parts of any make.
#[derive(Drop)]
struct Stage<P: Part + Drop> {
    heap: Global,
    quick: Console<P>,
    slow: Console<P>,
}

impl<P: Part + Drop> Stage<P> {
    // Both consoles made anew, closed, over their parts as they stand.
    fn anew(self) -> Stage<P> {
        let Stage { heap, quick, slow } = self;
        Stage {
            heap,
            quick: Console::new(quick.into_part()),
            slow: Console::new(slow.into_part()),
        }
    }

    // Makes one request of both consoles, or tells what is answered where they were made anew.
    fn ask(&mut self, request: Request) -> (Reply, Reply) {
        match request {
            Request::Open(quick, slow) => (
                Reply::Answer(self.quick.open(quick.first, quick.second)),
                Reply::Answer(self.slow.open(slow.first, slow.second)),
            ),
            Request::Call(call) => (
                Reply::Answer(self.quick.perform(call)),
                Reply::Answer(self.slow.perform(call)),
            ),
            Request::Quiet => (
                Reply::Quiet(self.quick.quiet()),
                Reply::Quiet(self.slow.quiet()),
            ),
            Request::Anew => (Reply::Anew, Reply::Anew),
        }
    }

    // One open and a list of calls: by the function that carries the promise.
    fn play_list<W: io::Write + Drop>(
        &mut self,
        sheet: &mut Sheet<W>,
        steps: &[Step],
        quick: Seats,
        slow: Seats,
        rows: &mut [Row],
    ) -> Result<(), Stopped> {
        let opened = rehearse(&mut self.quick, &mut self.slow, quick, slow, rows);
        let Some((first, rest)) = steps.split_first() else {
            return Ok(());
        };
        sheet.add(
            first,
            Reply::Answer(opened.quick.reply),
            Reply::Answer(opened.slow.reply),
        )?;
        for (step, row) in rest.iter().zip(rows.iter()) {
            sheet.add(
                step,
                Reply::Answer(row.quick.reply),
                Reply::Answer(row.slow.reply),
            )?;
        }
        Ok(())
    }

    // Makes the steps of a script on both consoles, and prints the account.
    fn play(self, rt: &HostRuntime, text: &[u8], steps: &[Step]) -> Result<(), Stopped> {
        let mut stage = self;
        let mut sheet = Sheet::new(stage.heap, text, io::writer(rt))?;
        match list_of(stage.heap, steps)? {
            Some((quick, slow, mut rows)) => {
                stage.play_list(&mut sheet, steps, quick, slow, rows.as_mut_slice())?;
            }
            None => {
                for step in steps {
                    if let Request::Anew = step.request {
                        stage = stage.anew();
                    }
                    let (quick, slow) = stage.ask(step.request);
                    sheet.add(step, quick, slow)?;
                }
            }
        }
        sheet.end()
    }
}

/// Makes the steps of a script on two consoles, closed, over these parts, and prints the account.
pub fn play_on<P: Part + Drop>(
    rt: &HostRuntime,
    heap: Global,
    text: &[u8],
    steps: &[Step],
    quick: P,
    slow: P,
) -> Result<(), Stopped> {
    let stage = Stage {
        heap,
        quick: Console::new(quick),
        slow: Console::new(slow),
    };
    stage.play(rt, text, steps)
}
