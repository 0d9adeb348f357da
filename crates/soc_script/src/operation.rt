// Reads an operation from its word.
ghost use Rattle.std.specs.Prelude.{◌≡◌, ◌<◌, ◌≤◌, ◌≢◌, ◌^◌, false, MatchOption, Some, option_map};
ghost use Rattle.eb_base.specs.Width.{octets};
ghost use Rattle.eb_base.specs.declared.width.Width.TheVariants.{W32};
ghost use Rattle.soc_script.specs.Digits.{};
ghost use Rattle.soc_script.specs.Script.{access_of, address_of, op_of, read_of, write_of};
ghost use Rattle.soc_script.specs.Words.{pieces_of};

use crate::digits::hex_number;
use crate::pieces::Pieces;
use eb_base::{Width, place};
use wb_signals::Op;

// An access of a port of 32 data bits that selects all of its lanes.
#[tactic(auto, unfolding(wb_signals::specs::Request::placed))]
fn access_of(bus: Width, write: bool, adr: u64, dat: u64) -> Op
    requires wide { 4 ≤ octets bus }
    requires data_fits { dat < 2 ^ 32 }
    requires no_data { write ≡ false → dat ≡ 0 }
    ensures value { result ≡ access_of bus write adr dat }
{
    let lanes = place(Width::W32, bus, adr, dat, 0xF);
    Op {
        write,
        adr: lanes.adr,
        dat: lanes.dat,
        sel: lanes.sel,
    }
}

fn address_of(word: &[u8]) -> Option<u64>
    ensures value { result ≡ address_of word.now }
{
    let adr = hex_number(16, word)?;
    if adr % 4 == 0 { Some(adr) } else { None }
}

fn read_of(bus: Width, word: &[u8]) -> Option<Op>
    requires wide { 4 ≤ octets bus }
    ensures value { result ≡ read_of bus word.now }
{
    let adr = address_of(word)?;
    Some(access_of(bus, false, adr, 0))
}

fn write_of(bus: Width, text: &[u8]) -> Option<Op>
    requires wide { 4 ≤ octets bus }
    ensures value { result ≡ write_of bus (pieces_of 61 text.now) }
{
    let mut words = Pieces::sides(text);
    let (address, data) = (words.next()?, words.next()?);
    if words.next().is_some() {
        return None;
    }
    let adr = address_of(address)?;
    let dat = hex_number(8, data)?;
    Some(access_of(bus, true, adr, dat))
}

/// The operation that a word of a line spells.
pub fn op_of(bus: Width, word: &[u8]) -> Option<Op>
    requires wide { 4 ≤ octets bus }
    ensures value { result ≡ op_of bus word.now }
{
    let (kind, rest) = word.split_first()?;
    match *kind {
        b'r' => read_of(bus, rest),
        b'w' => write_of(bus, rest),
        _ => None,
    }
}
