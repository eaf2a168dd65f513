// What is in the memory of a part when it is made.
ghost use Rattle.std.specs.Prelude.{◌≡◌, ◌+◌, ◌<◌, ◌^◌, length, map, Ok};
ghost use Rattle.script.specs.Sayings.{bytes_in};
ghost use Rattle.script.specs.Scripts.{Gives, patch as patch_of};
ghost use Rattle.runner.specs.Memory.{lengthened, put, filled, is_same, one_filled, memory_of};

use naming::Wrong;
use script::{Complaint, Patch, Unread, Who};
use std::alloc::Global;
use words::{next_word, number};

// Makes memory at least so long, with FFh.
#[tactic(auto, using(crate::proofs::Filling::longer, crate::proofs::Filling::enough))]
fn lengthen(memory: &mut Vec<u8>, size: usize) -> Result<(), Unread>
    ensures { Gives (λ _. memory.new.items) result (Ok (lengthened size memory.old.items)) }
{
    while memory.len() < size {
        memory.push(0xFF)?;
    }
    Ok(())
}

// Puts a byte into memory that is FFh as far as nothing was put there.
#[tactic(auto, using(crate::proofs::Filling::long))]
fn put(memory: &mut Vec<u8>, address: usize, byte: u8) -> Result<(), Unread>
    requires { address + 1 < 2 ^ 64 }
    ensures { Gives (λ _. memory.new.items) result (Ok (put address byte memory.old.items)) }
{
    lengthen(memory, address + 1)?;
    memory[address] = byte;
    Ok(())
}

// The bytes that words write; none where one of them writes no byte.
#[tactic(auto, using(crate::proofs::Filling::at_first, crate::proofs::Filling::one_read, crate::proofs::Filling::none_read, crate::proofs::Filling::all_read))]
fn bytes_of(heap: Global, text: &[u8]) -> Result<Vec<u8>, Unread>
    ensures { Gives (λ bytes. bytes.items) result (Ok (bytes_in text.now)) }
{
    let mut bytes = Vec::new(heap);
    let mut rest = text;
    while let Some((word, after)) = next_word(rest) {
        let Some(byte) = number(word, 0xFF) else {
            return Ok(Vec::new(heap));
        };
        bytes.push(byte as u8)?;
        rest = after;
    }
    Ok(bytes)
}

// Puts the bytes of a line into the memory of a part of this size, from an address on.
#[tactic(auto, unfolding(crate::specs::Memory::filled))]
fn fill(
    memory: &mut Vec<u8>,
    size: usize,
    line: usize,
    start: usize,
    bytes: &[u8],
) -> Result<(), Unread>
    ensures { Gives (λ _. memory.new.items) result (filled size line start bytes.now memory.old.items) }
{
    let mut address = start;
    let mut rest = bytes;
    while let Some((byte, more)) = rest.split_first() {
        if address >= size {
            return Err(Unread::Complaint(Complaint {
                line,
                what: Wrong::OutsidePart,
            }));
        }
        put(memory, address, *byte)?;
        address += 1;
        rest = more;
    }
    Ok(())
}

fn is_same(one: Who, two: Who) -> bool
    ensures { result ≡ is_same one two }
{
    match (one, two) {
        (Who::Quick, Who::Quick) | (Who::Slow, Who::Slow) => true,
        _ => false,
    }
}

// Puts the bytes of a line there, if it is one of this console's.
fn add(
    heap: Global,
    memory: &mut Vec<u8>,
    who: Who,
    size: usize,
    patch: &Patch,
) -> Result<(), Unread>
    ensures { Gives (λ _. memory.new.items) result (one_filled who size (patch_of patch.now) memory.old.items) }
{
    if !is_same(who, patch.cells.who) {
        return Ok(());
    }
    let bytes = bytes_of(heap, patch.cells.bytes)?;
    let start = patch.cells.address as usize;
    fill(memory, size, patch.line, start, bytes.as_slice())
}

/// What is in the memory of a console's part of this size, from address 0 on, or the first line that has a byte outside. Behind it is FFh.
pub fn memory_of(heap: Global, patches: &[Patch], who: Who, size: usize) -> Result<Vec<u8>, Unread>
    ensures { Gives (λ memory. memory.items) result (memory_of who size (map patch_of patches.now)) }
{
    let mut memory = Vec::new(heap);
    for patch in patches {
        add(heap, &mut memory, who, size, patch)?;
    }
    Ok(memory)
}
