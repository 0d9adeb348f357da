//! A slave of the bus at its addresses.
ghost use Rattle.std.specs.Prelude.{◌≡◌, ◌≤◌, ◌<◌, ℕ, true, false, map, length, All};
ghost use Rattle.std.specs.Option.{ForSome, option_map, is_some};
ghost use Rattle.wb_signals.specs.Request.{less};
ghost use Rattle.wb_signals.specs.Bus.{bus, covers, inside};
ghost use Rattle.wb_signals.specs.Slave.{given, is_stalled, owes};
ghost use Rattle.wb_signals.specs.Parts.{child_of, child_at, part_at, part_ticked, inside_given};
ghost use Rattle.wb_signals.specs.Turn.{CanPass, parts_after};
ghost use Rattle.wb_crossbar.specs.Inside.{parts_of, AllSound};

use wb_signals::{Answer, Clocked, Op};

/// A top slave of a bus, at the addresses from `first` to `last`.
#[derive(Drop)]
pub struct Slot<S> {
    pub first: u64,
    pub last: u64,
    pub node: S,
}

/// The number of the slave that holds an address, or the number of slaves.
pub fn find<S: Clocked>(slots: &[Slot<S>], adr: u64) -> usize
    ensures at { result ≡ child_at (map child_of (parts_of S.slave slots.now)) adr }
{
    for (i, slot) in slots.iter().enumerate() {
        if slot.first <= adr && adr <= slot.last {
            return i;
        }
    }
    slots.len()
}

/// Whether a slave stalls an operation of the bus.
pub fn is_stalled<S: Clocked>(slots: &[Slot<S>], k: usize, op: &Op) -> bool
    requires k_in { k < length slots.now }
    requires sound { AllSound S.is_sound slots.now }
    requires covered { covers (child_of (part_at (parts_of S.slave slots.now) k)) op.now.adr ≡ true }
    requires taken { (part_at (parts_of S.slave slots.now) k).slave.wiring.accepts
        (inside (child_of (part_at (parts_of S.slave slots.now) k)) op.now) ≡ true }
    ensures stalled { result ≡ is_stalled (part_at (parts_of S.slave slots.now) k).slave.wiring
        (part_at (parts_of S.slave slots.now) k).slave.owed
        (inside (child_of (part_at (parts_of S.slave slots.now) k)) op.now) }
{
    let slot = &slots[k];
    let op = Op {
        write: op.write,
        adr: op.adr - slot.first,
        dat: op.dat,
        sel: op.sel,
    };
    slot.node.stalled(&op)
}

/// Whether a slave owes an answer.
pub fn owes<S: Clocked>(slots: &[Slot<S>], k: usize) -> bool
    requires k_in { k < length slots.now }
    requires sound { AllSound S.is_sound slots.now }
    ensures owes { result ≡ owes (part_at (parts_of S.slave slots.now) k).slave.owed }
{
    let slot = &slots[k];
    slot.node.owes()
}

/// One clock of a slave, in which this operation of the bus passes to it, or none.
pub fn tick<S: Clocked>(slots: &mut Vec<Slot<S>>, k: usize, op: Option<Op>) -> Option<Answer>
    requires k_in { k < length slots.old.items }
    requires sound { AllSound S.is_sound slots.old.items }
    requires can { CanPass (part_at (parts_of S.slave slots.old.items) k) op }
    ensures answer { result ≡ given (part_at (parts_of S.slave slots.old.items) k).slave.owed }
    ensures parts { parts_of S.slave slots.new.items ≡ parts_after (parts_of S.slave slots.old.items) k op }
    ensures sound { AllSound S.is_sound slots.new.items }
{
    let slot = &mut slots[k];
    let op = inside(slot.first, op);
    slot.node.tick(op)
}

/// The operation as a slave sees it that begins at `first`.
fn inside(first: u64, op: Option<Op>) -> Option<Op>
    requires above { ForSome op (λ r. first ≤ r.adr) }
    ensures inside { result ≡ option_map (less first) op }
{
    match op {
        Some(op) => Some(Op {
            write: op.write,
            adr: op.adr - first,
            dat: op.dat,
            sel: op.sel,
        }),
        None => None,
    }
}
