ghost use Rattle.std.specs.Prelude.{◌≡◌, ◌+◌, ◌-◌, ◌%◌, ◌^◌, ◌<◌, ◌≤◌};
ghost use Rattle.eb_base.specs.Width.{octets};
ghost use Rattle.eb_base.specs.Lanes.{selected, port_address, shift, placed_adr, placed_dat, placed_sel, word_of};

use crate::width::Width;

/// Where an access of a port goes on a bus: the address of the bus word, the data, and the lanes that it selects.
///
/// `adr` is a multiple of the bus's octets. Line `i` of `sel` selects bits `8i` to `8i + 7` of `dat`, which is zero
/// in the other lanes (SEL_O of Wishbone B4, 2.2.3).
#[derive(Clone, Copy, Debug, PartialEq, Eq)]
pub struct Lanes {
    pub adr: u64,
    pub dat: u64,
    pub sel: u8,
}

/// Where an access of a port to the octet address `adr` goes on a bus that is at least as wide.
///
/// The address bits below the port's width are dropped. The lowest address of a bus word is its most significant
/// lane, so the access is moved up by the lanes that lie below it. Data outside the selected lanes becomes zero.
pub fn place(port: Width, bus: Width, adr: u64, dat: u64, sel: u8) -> Lanes
    requires narrow { octets port ≤ octets bus }
    requires some_lane { 1 ≤ sel }
    requires lanes { sel < 2 ^ octets port }
    requires data_fits { dat < 256 ^ octets port }
    ensures adr { result.adr ≡ placed_adr port bus adr }
    ensures dat { result.dat ≡ placed_dat port bus adr dat sel }
    ensures sel { result.sel ≡ placed_sel port bus adr sel }
{
    let lanes = lanes_up(port, bus, adr);
    let base = adr - below(port, adr);
    Lanes {
        adr: base - below(bus, base),
        dat: selected(port, sel, dat) << (8 * lanes),
        sel: sel << lanes,
    }
}

/// What a port gets of the bus word `dat` that was read for its access: its own lanes moved back down, with zero in
/// those that `sel`, the port's own lanes, doesn't select.
pub fn word(port: Width, bus: Width, adr: u64, dat: u64, sel: u8) -> u64
    requires narrow { octets port ≤ octets bus }
    requires some_lane { 1 ≤ sel }
    requires lanes { sel < 2 ^ octets port }
    ensures value { result ≡ word_of port bus adr dat sel }
{
    selected(port, sel, dat >> (8 * lanes_up(port, bus, adr)))
}

/// A word of so many lanes with zeros in those that `sel` doesn't select.
pub fn selected(lanes: Width, sel: u8, word: u64) -> u64
    ensures value { result ≡ selected (octets lanes) sel word }
    ensures fits { result < 256 ^ octets lanes }
{
    match lanes {
        Width::W8 => one_lane(sel, word),
        Width::W16 => two_lanes(sel, word),
        Width::W32 => four_lanes(sel, word),
        Width::W64 => eight_lanes(sel, word),
    }
}

fn one_lane(sel: u8, word: u64) -> u64
    ensures value { result ≡ selected 1 sel word }
    ensures fits { result < 256 }
{
    if sel % 2 == 1 { word % 256 } else { 0 }
}

fn two_lanes(sel: u8, word: u64) -> u64
    ensures value { result ≡ selected 2 sel word }
    ensures fits { result < 256 ^ 2 }
{
    one_lane(sel, word) + 256 * one_lane(sel / 2, word / 256)
}

fn four_lanes(sel: u8, word: u64) -> u64
    ensures value { result ≡ selected 4 sel word }
    ensures fits { result < 256 ^ 4 }
{
    // The common case: all lanes.
    if sel == 15 {
        return word % 0x1_0000_0000;
    }
    two_lanes(sel, word) + 0x1_0000 * two_lanes(sel / 4, word / 0x1_0000)
}

fn eight_lanes(sel: u8, word: u64) -> u64
    ensures value { result ≡ selected 8 sel word }
{
    // The common case: all lanes.
    if sel == 255 {
        return word;
    }
    four_lanes(sel, word) + 0x1_0000_0000 * four_lanes(sel / 16, word / 0x1_0000_0000)
}

// How many lanes an access is moved up.
fn lanes_up(port: Width, bus: Width, adr: u64) -> u32
    requires { octets port ≤ octets bus }
    ensures value { result ≡ shift port bus adr }
    ensures room { result + octets port ≤ octets bus }
{
    let base = adr - below(port, adr);
    bus.octets() - port.octets() - below(bus, base) as u32
}

// The part of an address that lies within a word of this width.
fn below(width: Width, adr: u64) -> u64
    ensures value { result ≡ adr % octets width }
    ensures within { result ≤ adr }
    ensures small { result < 8 }
{
    match width {
        Width::W8 => 0,
        Width::W16 => adr % 2,
        Width::W32 => adr % 4,
        Width::W64 => adr % 8,
    }
}
