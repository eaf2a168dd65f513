// A whole script, line by line.
ghost use Rattle.std.specs.Prelude.{◌≡◌, ◌+◌, ◌^◌, ◌<◌, length, All, IfOk};
ghost use Rattle.script.specs.Scripts.{Gives, view, begun, is_ready, names, entered, after_line, finished, script_of, plan, Stands};
ghost use Rattle.script.specs.Sayings.{saying_of};
ghost use Rattle.script.specs.Laws.{ScriptsAgain};

use crate::entry::{Entry, Pieces, Who};
use crate::reading::parse;
use crate::script::{Patch, Script, Step};
use crate::unread::{Complaint, Unread};
use naming::Wrong;
use std::alloc::Global;
use words::place_of;

// What has been read of a script.
#[derive(Drop)]
pub(crate) struct Draft<'a> {
    pub(crate) quick: Option<Pieces>,
    pub(crate) slow: Option<Pieces>,
    pub(crate) patches: Vec<Patch<'a>>,
    pub(crate) steps: Vec<Step>,
}

impl<'a> Draft<'a> {
    fn new(alloc: Global) -> Draft<'a>
        ensures { view result ≡ begun }
    {
        Draft {
            quick: None,
            slow: None,
            patches: Vec::new(alloc),
            steps: Vec::new(alloc),
        }
    }

    // Whether both parts are named.
    fn is_ready(&self) -> bool
        ensures { result ≡ is_ready (view self.now) }
    {
        self.quick.is_some() && self.slow.is_some()
    }

    // Whether the part of a console is named.
    fn names(&self, who: Who) -> bool
        ensures { result ≡ names who (view self.now) }
    {
        match who {
            Who::Quick => self.quick.is_some(),
            Who::Slow => self.slow.is_some(),
        }
    }

    // Takes what a line says, of which is told its number, where it begins and where it ends.
    #[tactic(auto, using(crate::proofs::WholeAgain::one_patch_more))]
    fn enter(
        &mut self,
        number: usize,
        start: usize,
        end: usize,
        entry: Entry<'a>,
    ) -> Result<(), Unread>
        ensures { Gives (λ _. view self.new) result (entered number start end (view self.old) (saying_of entry.entry)) }
    {
        match entry {
            Entry::Quick(pieces) => match self.quick {
                Some(_) => Err(complaint(number, Wrong::QuickTwice)),
                None => {
                    self.quick = Some(pieces);
                    Ok(())
                }
            },
            Entry::Slow(pieces) => match self.slow {
                Some(_) => Err(complaint(number, Wrong::SlowTwice)),
                None => {
                    self.slow = Some(pieces);
                    Ok(())
                }
            },
            Entry::Cells(cells) => {
                if self.names(cells.who) && self.steps.is_empty() {
                    self.patches.push(Patch {
                        line: number,
                        cells,
                    })?;
                    Ok(())
                } else {
                    Err(complaint(number, Wrong::CellsOutOfPlace))
                }
            }
            Entry::Request(request) => {
                if self.is_ready() {
                    self.steps.push(Step {
                        request,
                        start,
                        end,
                    })?;
                    Ok(())
                } else {
                    Err(complaint(number, Wrong::TooEarly))
                }
            }
        }
    }

    // Takes one more line.
    #[tactic(auto, unfolding(crate::specs::Scripts::after_line))]
    fn add(&mut self, number: usize, start: usize, line: &'a [u8]) -> Result<(), Unread>
        requires { start + length line.now < 2 ^ 64 }
        ensures { Gives (λ _. view self.new) result (after_line number start (view self.old) line.now) }
    {
        match parse(line) {
            Err(what) => Err(complaint(number, what)),
            Ok(None) => Ok(()),
            Ok(Some(entry)) => self.enter(number, start, start + line.len(), entry),
        }
    }

    // The script, if both parts are there.
    fn finish(self, number: usize) -> Result<Script<'a>, Unread>
        ensures { Gives (λ s. plan s) result (finished number (view self.entry)) }
    {
        let Draft {
            quick,
            slow,
            patches,
            steps,
        } = self;
        let Some(quick) = quick else {
            return Err(complaint(number, Wrong::NoQuick));
        };
        let Some(slow) = slow else {
            return Err(complaint(number, Wrong::NoSlow));
        };
        Ok(Script {
            quick,
            slow,
            patches,
            steps,
        })
    }
}

fn complaint(line: usize, what: Wrong) -> Unread
    ensures { result ≡ Unread.Complaint (record { line = line; what = what }) }
{
    Unread::Complaint(Complaint { line, what })
}

/// The script that a text is, or the first thing that is wrong with it.
pub fn read(alloc: Global, text: &[u8]) -> Result<Script<'_>, Unread>
    ensures value { Gives (λ s. plan s) result (script_of text.now) }
    // Each step stands in the text where it says so.
    ensures steps { IfOk result (λ s. All (Stands text.now) s.steps.items) }
    // What is written line by line is read again.
    ensures again { ScriptsAgain }
{
    let mut draft = Draft::new(alloc);
    let mut number = 1;
    let mut rest = text;
    loop {
        let (line, after) = rest.split_at(place_of(rest, b'\n'));
        draft.add(number, text.len() - rest.len(), line)?;
        let Some((_, more)) = after.split_first() else {
            break;
        };
        number += 1;
        rest = more;
    }
    draft.finish(number)
}
