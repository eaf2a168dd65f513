// The times that the rules of the chips give, in microseconds. Each stands beside its definition in specs/Limits.antt, which contracts cite.
ghost use Rattle.std.specs.Prelude.{◌≡◌};
ghost use Rattle.flash.specs.Limits.{program_fits, erase_fits, suspend_fits};

/// More blocks may be added to an erase for so long after the last 30h.
pub const WINDOW: u32 = 50;

/// The longest time that a byte may take to program; also that after which a program fails.
pub const LONGEST_PROGRAM: u32 = 300;

/// The longest time that a block may take to erase; also that for each block after which an erase fails.
pub const LONGEST_ERASE: u32 = 10_000_000;

/// The longest time from the suspend command until a chip is suspended.
pub const LONGEST_SUSPENSION: u32 = 15;

/// The chip is busy for so long with a byte in a protected block.
pub const PROTECTED_PROGRAM: u32 = 3;

/// The erasing lasts so long where every selected block is protected.
pub const PROTECTED_ERASE: u32 = 50;

/// Whether a chip may take so long to program a byte.
pub fn program_fits(time: u32) -> bool
    ensures { result ≡ program_fits time }
{
    (1..=LONGEST_PROGRAM).contains(&time)
}

/// Whether a chip may take so long to erase a block.
pub fn erase_fits(time: u32) -> bool
    ensures { result ≡ erase_fits time }
{
    (1..=LONGEST_ERASE).contains(&time)
}

/// Whether a chip may take so long until it is suspended.
pub fn suspend_fits(time: u32) -> bool
    ensures { result ≡ suspend_fits time }
{
    (1..=LONGEST_SUSPENSION).contains(&time)
}
