// What the data sheet of a chip says beside its blocks.
ghost use Rattle.std.specs.Prelude.{◌≡◌, ◌%◌, ◌^◌};
ghost use Rattle.geometry.specs.Sheets.{low_bits};

/// Where a chip takes its commands: at two addresses, of which so many low bits count.
#[derive(Clone, Copy, Debug, PartialEq, Eq)]
pub struct Commands {
    pub first: u32,
    pub second: u32,
    pub bits: u32,
}

impl Commands {
    /// The low bits of an address, which are compared with the two command addresses.
    pub fn low_bits(self, address: u32) -> u32
        ensures { result ≡ low_bits self address }
    {
        low_bits(self.bits, address)
    }
}

// The low bits of an address.
fn low_bits(bits: u32, address: u32) -> u32
    ensures { result ≡ address % 2 ^ bits }
{
    if bits < u32::BITS {
        address % (1 << bits)
    } else {
        address
    }
}

/// The address bits that choose what a read in ID mode gives, by their places.
#[derive(Clone, Copy, Debug, PartialEq, Eq)]
pub struct Choice {
    pub low: u32,
    pub middle: u32,
    pub high: u32,
}

/// What a data sheet says of a chip beside its blocks.
#[derive(Clone, Copy, Debug, PartialEq, Eq)]
pub struct Sheet {
    /// How many bytes the chip has.
    pub size: u32,
    /// The maker's code, which ID mode gives.
    pub maker: u8,
    /// The device code, which ID mode gives too.
    pub code: u8,
    pub commands: Commands,
    pub choice: Choice,
}
