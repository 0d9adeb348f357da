ghost use Rattle.std.specs.Prelude.{◌≡◌, MatchOption};
ghost use Rattle.eb_base.specs.Width.{octets, bit, IsNoBit};

/// A width of addresses or of data: 8, 16, 32 or 64 bits.
#[derive(Clone, Copy, Debug, PartialEq, Eq)]
pub enum Width {
    W8,
    W16,
    W32,
    W64,
}

impl Width {
    /// How many octets it has.
    pub fn octets(self) -> u32
        ensures { result ≡ octets self }
    {
        match self {
            Width::W8 => 1,
            Width::W16 => 2,
            Width::W32 => 4,
            Width::W64 => 8,
        }
    }

    /// Its bit in a set of widths (Etherbone 1.0: bit 0 is 8 bits, bit 3 is 64 bits).
    pub fn bit(self) -> u8
        ensures { result ≡ bit self }
    {
        match self {
            Width::W8 => 1,
            Width::W16 => 2,
            Width::W32 => 4,
            Width::W64 => 8,
        }
    }

    /// The width of a bit. None exactly where `b` is none of 1, 2, 4 and 8.
    pub fn from_bit(b: u8) -> Option<Width>
        ensures width { MatchOption result (IsNoBit b) (λ w. bit w ≡ b) }
    {
        match b {
            1 => Some(Width::W8),
            2 => Some(Width::W16),
            4 => Some(Width::W32),
            8 => Some(Width::W64),
            _ => None,
        }
    }
}

/// A set of address widths and a set of data widths, as width bits. Each is below 16.
#[derive(Clone, Copy, Debug, PartialEq, Eq)]
pub struct Widths {
    pub addresses: u8,
    pub ports: u8,
}
