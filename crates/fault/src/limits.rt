// What two causes mean in every layer.
ghost use Rattle.std.specs.Prelude.{◌≡◌};
ghost use Rattle.fault.specs.Limits.{longest, needs_erase, time_no};

use crate::cause::Cause;

/// The longest time, in microseconds, that may pass in one call.
pub const LONGEST: u32 = 1_000_000_000;

/// Why a time, in microseconds, may not pass in one call: it is over the longest; none where it may.
pub fn time_no(n: u32) -> Option<Cause>
    ensures { result ≡ time_no n }
{
    (n > LONGEST).then_some(Cause::TimeTooLong)
}

/// Whether a byte has a 1 where a cell has a 0, which only an erase can bring about.
pub fn needs_erase(old: u8, byte: u8) -> bool
    ensures { result ≡ needs_erase old byte }
{
    old & byte != byte
}
