// The octets of the records.
ghost use Rattle.std.specs.Prelude.{◌≡◌, ◌<◌, ◌≤◌, ◌+◌, ◌*◌, ◌++◌, flat_map, length};
ghost use Rattle.eb_base.specs.declared.width.Width.TheVariants.{W32};
ghost use Rattle.eb_base.specs.Field.{octets_of};
ghost use Rattle.eb_load.specs.Draws.{state_after};
ghost use Rattle.eb_load.specs.Stream.{values_from, addresses_from, after_record, load_record_octets};

use crate::draws::Draws;
use crate::piece::Piece;
use eb_codec::flags::{BCA, CYC};

// Appends the octets of a number, the highest first.
#[tactic(auto, unfolding(eb_base::specs::Field::octets_of))]
fn put_number(out: &mut Piece, n: u32)
    requires room { length out.old + 4 ≤ 44 }
    ensures items { out.new ≡ out.old ++ octets_of W32 n }
    ensures len { length out.new ≡ length out.old + 4 }
{
    out.put(n.to_be_bytes());
}

// Appends so many values.
fn put_values(out: &mut Piece, draws: &mut Draws, count: u32)
    requires room { length out.old + 4 * count ≤ 44 }
    ensures items { out.new ≡ out.old ++ flat_map (octets_of W32) (values_from count draws.old) }
    ensures len { length out.new ≡ length out.old + 4 * count }
    ensures draws { draws.new ≡ state_after (2 * count) draws.old }
{
    for _ in 0..count {
        let high = draws.draw();
        let low = draws.draw();
        put_number(out, high * 65_536 + low);
    }
}

// Appends so many addresses to read.
fn put_addresses(out: &mut Piece, draws: &mut Draws, count: u32)
    requires room { length out.old + 4 * count ≤ 44 }
    ensures items { out.new ≡ out.old ++ flat_map (octets_of W32) (addresses_from count draws.old) }
    ensures len { length out.new ≡ length out.old + 4 * count }
    ensures draws { draws.new ≡ state_after count draws.old }
{
    for _ in 0..count {
        let word = draws.draw();
        put_number(out, 4 * (word % 16_384));
    }
}

// Puts the octets of the next record in place of those that there are.
pub fn put_record(out: &mut Piece, draws: &mut Draws)
    ensures octets { out.new ≡ load_record_octets draws.old }
    ensures draws { draws.new ≡ after_record draws.old }
    ensures some { 0 < length out.new }
{
    let writes = 1 + draws.draw() % 4;
    let base = 4 * (draws.draw() % 16_380);
    let reads = 1 + draws.draw() % 4;
    out.clear();
    out.put([BCA + CYC, 0x0f, writes as u8, reads as u8]);
    put_number(out, base);
    put_values(out, draws, writes);
    put_number(out, 0);
    put_addresses(out, draws, reads);
}
