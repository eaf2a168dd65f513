/// A step of an example: one bus cycle, a command sequence, or time.
#[derive(Clone, Copy, Debug, PartialEq, Eq)]
pub enum Cycle {
    Write(u32, u8),
    /// The four writes that program a byte at an address.
    Program(u32, u8),
    /// The six writes that erase the block of an address.
    Erase(u32),
    /// An address, and the byte that a read there should give.
    Read(u32, u8),
    Wait(u32),
}
