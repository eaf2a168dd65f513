// What a chip answers to a read that does not give a cell: its status, and what ID mode gives.
ghost use Rattle.std.specs.Prelude.{◌≡◌};
ghost use Rattle.geometry.specs.Sets.{bit};
ghost use Rattle.flash.specs.BlockMaps.{block_map};
ghost use Rattle.flash.specs.Identities.{asked, identity};
ghost use Rattle.flash.specs.Statuses.{status};

use crate::block_map::BlockMap;
use geometry::{Choice, Sheet};

/// What a suspended chip answers in a selected block.
pub const SUSPENDED_STATUS: u8 = 0x80;

/// What a read in ID mode asks for.
#[derive(Clone, Copy, Debug, PartialEq, Eq)]
pub enum Question {
    /// The maker's code.
    Maker,
    /// The device code.
    Device,
    /// Whether the block of the address is protected.
    Protection,
    /// Nothing that the chip has an answer to.
    Nothing,
}

// Whether a bit of an address is 1.
fn is_high(address: u32, place: u32) -> bool
    ensures { result ≡ bit address place }
{
    place < u32::BITS && address >> place & 1 == 1
}

impl Question {
    /// What a read at an address asks for, by the address bits that choose.
    pub fn of(choice: Choice, address: u32) -> Question
        ensures { result ≡ asked choice address }
    {
        match (
            is_high(address, choice.high),
            is_high(address, choice.middle),
            is_high(address, choice.low),
        ) {
            (false, false, false) => Question::Maker,
            (false, false, true) => Question::Device,
            (false, true, false) => Question::Protection,
            _ => Question::Nothing,
        }
    }
}

/// What a read in ID mode answers.
pub fn identity(sheet: Sheet, blocks: &BlockMap, address: u32) -> u8
    ensures { result ≡ identity sheet (block_map blocks.now) address }
{
    match Question::of(sheet.choice, address) {
        Question::Maker => sheet.maker,
        Question::Device => sheet.code,
        Question::Protection => u8::from(blocks.is_protected(address)),
        Question::Nothing => 0,
    }
}

/// The status byte of an operation that is to leave `byte` in a cell: DQ7, DQ6, DQ5 and DQ3.
pub fn status(byte: u8, toggle: bool, failed: bool, begun: bool) -> u8
    ensures { result ≡ status byte toggle failed begun }
{
    let inverse = if byte < 0x80 { 0x80 } else { 0 };
    let toggle = if toggle { 0x40 } else { 0 };
    let failed = if failed { 0x20 } else { 0 };
    let begun = if begun { 0x08 } else { 0 };
    inverse | toggle | failed | begun
}
