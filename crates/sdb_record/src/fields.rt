//! Numbers in the octets of a record, the highest octet first.
ghost use Rattle.std.specs.Prelude.{◌≡◌, ◌<◌, ◌≤◌, ◌+◌, length};
ghost use Rattle.eb_base.specs.Field.{number_at};
ghost use Rattle.eb_base.specs.declared.width.Width.TheVariants.{W8, W16, W32, W64};
ghost use Rattle.sdb_record.specs.Layout.{Number, Text};
ghost use Rattle.sdb_record.specs.Relation.{FitsField, with_field};

use crate::layout::{NAME_LEN, RECORD_LEN};
use eb_base::Name;

/// The octets of a record.
pub type Octets = [u8; RECORD_LEN];

// The octet at a place.
pub fn get8(bytes: &Octets, at: usize) -> u8
    requires { at < 64 }
    ensures { result ≡ number_at W8 bytes.now at }
{
    bytes[at]
}

#[tactic(auto, unfolding(crate::specs::Relation::with_field))]
pub fn put8(out: &mut Octets, at: usize, value: u8)
    requires { at < 64 }
    ensures written { out.new ≡ with_field out.old (Number at W8 value) }
    ensures fits { FitsField (Number at W8 value) }
{
    out[at] = value;
}

#[tactic(auto, unfolding(crate::specs::Relation::with_field))]
pub fn put16(out: &mut Octets, at: usize, value: u16)
    requires { at + 2 ≤ 64 }
    ensures written { out.new ≡ with_field out.old (Number at W16 value) }
    ensures fits { FitsField (Number at W16 value) }
{
    eb_base::put16(out, at, value);
}

#[tactic(auto, unfolding(crate::specs::Relation::with_field))]
pub fn put32(out: &mut Octets, at: usize, value: u32)
    requires { at + 4 ≤ 64 }
    ensures written { out.new ≡ with_field out.old (Number at W32 value) }
    ensures fits { FitsField (Number at W32 value) }
{
    eb_base::put32(out, at, value);
}

#[tactic(auto, unfolding(crate::specs::Relation::with_field))]
pub fn put64(out: &mut Octets, at: usize, value: u64)
    requires { at + 8 ≤ 64 }
    ensures written { out.new ≡ with_field out.old (Number at W64 value) }
    ensures fits { FitsField (Number at W64 value) }
{
    eb_base::put64(out, at, value);
}

#[tactic(auto, unfolding(crate::specs::Relation::with_field))]
pub fn put_name(out: &mut Octets, at: usize, name: &Name)
    requires { at + 19 ≤ 64 }
    ensures written { out.new ≡ with_field out.old (Text at 19 name.now) }
    ensures fits { FitsField (Text at 19 name.now) }
{
    out[at..at + NAME_LEN].copy_from_slice(&name.octets());
}
