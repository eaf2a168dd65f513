// The record of the day: the name of a stop.
use workbench::Trouble;

pub const RECORD: &[u8] = b"CHAMADE 8";

// Reads the cells of the record by `read`, prints each, and says whether they are what was stored.
pub(crate) fn read_back<E, F: FnMut(u32) -> Result<u8, E>>(
    rt: &HostRuntime,
    at: u32,
    mut read: F,
) -> Result<bool, Trouble>
where
    Trouble: From<E>,
    requires { F.IsAlwaysCallable read }
{
    let mut whole = true;
    for (&byte, address) in RECORD.iter().zip(at..) {
        let cell = read(address)?;
        whole &= cell == byte;
        print!(rt; " {cell:02X}h")?;
    }
    Ok(whole)
}
