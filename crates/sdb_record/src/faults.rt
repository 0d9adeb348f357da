//! What can be wrong with 64 octets, and the first of these.
ghost use Rattle.std.specs.Prelude.{◌≡◌, ◌<◌, IfSome, Some};
ghost use Rattle.sdb_record.specs.Faults.{first_fault, is_type, has_component, has_product, bad_in_name};

use crate::fields::{Octets, get8};
use crate::layout::*;
use crate::text::{text_in, unprinted};
use eb_base::{get16, get32, get64};

/// What is wrong with the octets of a record.
#[derive(Clone, Copy, Debug, PartialEq, Eq)]
pub enum RecordWhy {
    /// The type is none of the five.
    UnknownType,
    /// An interconnect with another magic number.
    BadMagic,
    /// An interconnect that counts no record.
    BadCount,
    /// An interconnect of another version of the format.
    BadVersion,
    /// An interconnect of another bus type.
    BadBus,
    /// A first address above the last.
    BadRange,
    /// An octet in the name that can't be printed.
    BadName,
}

/// Why octets are no record, and the octet from 0 that shows it.
#[derive(Clone, Copy, Debug, PartialEq, Eq)]
pub struct RecordFault {
    pub at: u8,
    pub why: RecordWhy,
}

fn fault(why: RecordWhy, at: usize) -> Option<RecordFault>
    requires { at < 256 }
    ensures { result ≡ Some (record { at = at; why = why }) }
{
    Some(RecordFault { at: at as u8, why })
}

fn is_type(kind: u8) -> bool
    ensures { result ≡ is_type kind }
{
    matches!(kind, INTERCONNECT | DEVICE | BRIDGE | INTEGRATION | EMPTY)
}

fn has_component(kind: u8) -> bool
    ensures { result ≡ has_component kind }
{
    matches!(kind, INTERCONNECT | DEVICE | BRIDGE)
}

fn has_product(kind: u8) -> bool
    ensures { result ≡ has_product kind }
{
    has_component(kind) || kind == INTEGRATION
}

fn bad_in_name(bytes: &Octets) -> Option<usize>
    ensures place { result ≡ bad_in_name bytes.now }
    ensures within { IfSome result (λ k. k < 19) }
{
    unprinted(text_in(&bytes[NAME_AT..NAME_AT + NAME_LEN]))
}

// The first fault of a record in a table of this bus type.
#[tactic(auto, unfolding(crate::specs::Faults::first_fault))]
pub fn first_fault(bus: u8, bytes: &Octets) -> Option<RecordFault>
    ensures { result ≡ first_fault bus bytes.now }
{
    let kind = get8(bytes, TYPE_AT);
    let is_interconnect = kind == INTERCONNECT;
    if !is_type(kind) {
        fault(RecordWhy::UnknownType, TYPE_AT)
    } else if is_interconnect && get32(bytes, MAGIC_AT) != MAGIC {
        fault(RecordWhy::BadMagic, MAGIC_AT)
    } else if is_interconnect && get16(bytes, RECORDS_AT) == 0 {
        fault(RecordWhy::BadCount, RECORDS_AT)
    } else if is_interconnect && get8(bytes, FORMAT_AT) != FORMAT {
        fault(RecordWhy::BadVersion, FORMAT_AT)
    } else if is_interconnect && get8(bytes, BUS_TYPE_AT) != bus {
        fault(RecordWhy::BadBus, BUS_TYPE_AT)
    } else if has_component(kind) && get64(bytes, LAST_AT) < get64(bytes, FIRST_AT) {
        fault(RecordWhy::BadRange, FIRST_AT)
    } else if has_product(kind) {
        let place = bad_in_name(bytes)?;
        fault(RecordWhy::BadName, NAME_AT + place)
    } else {
        None
    }
}
