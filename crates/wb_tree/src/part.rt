//! A child of a bus.
ghost use Rattle.std.specs.Prelude.{◌≡◌, ◌≤◌, true};
ghost use Rattle.std.specs.Option.{ForSome, option_map};
ghost use Rattle.wb_signals.specs.Request.{less};
ghost use Rattle.wb_signals.specs.Bus.{covers, inside};
ghost use Rattle.wb_signals.specs.Slave.{given, is_stalled, owes};
ghost use Rattle.wb_signals.specs.Parts.{child_of, part_ticked};
ghost use Rattle.wb_signals.specs.Turn.{CanPass};
ghost use Rattle.wb_tree.specs.Tree.{node_slave, part_slave, IsSound, IsSoundPart};

use crate::Node;
use wb_signals::{Answer, Clocked, Op};

/// A child of a bus, at the addresses from `first` to `last`.
#[cycle(tree)]
#[derive(Drop)]
pub struct Part {
    pub first: u64,
    pub last: u64,
    pub node: Node,
}

impl Part {
    /// A child at these addresses.
    pub fn new(first: u64, last: u64, node: Node) -> Part
        requires sound { IsSound node }
        ensures part { part_slave result ≡ record { first = first; last = last; slave = node_slave node } }
        ensures sound { IsSoundPart result }
    {
        Part { first, last, node }
    }

    /// Its node.
    pub fn into_node(self) -> Node
        requires sound { IsSoundPart self }
        ensures slave { node_slave result ≡ (part_slave self).slave }
        ensures sound { IsSound result }
    {
        self.node
    }

    /// Whether an answer is owed.
    pub(crate) fn owes(&self) -> bool
        requires sound { IsSoundPart self.now }
        ensures owes { result ≡ owes (part_slave self.now).slave.owed }
    {
        self.node.owes()
    }

    #[cycle(stalled)]
    pub(crate) fn stalled(&self, op: &Op) -> bool
        requires sound { IsSoundPart self.now }
        requires covered { covers (child_of (part_slave self.now)) op.now.adr ≡ true }
        requires taken { (part_slave self.now).slave.wiring.accepts
            (inside (child_of (part_slave self.now)) op.now) ≡ true }
        ensures stalled { result ≡
            is_stalled (part_slave self.now).slave.wiring (part_slave self.now).slave.owed
            (inside (child_of (part_slave self.now)) op.now) }
    {
        let op = Op {
            write: op.write,
            adr: op.adr - self.first,
            dat: op.dat,
            sel: op.sel,
        };
        self.node.stalled(&op)
    }

    #[cycle(tick)]
    pub(crate) fn tick(&mut self, op: Option<Op>) -> Option<Answer>
        requires sound { IsSoundPart self.old }
        requires can { CanPass (part_slave self.old) op }
        ensures answer { result ≡ given (part_slave self.old).slave.owed }
        ensures after { part_slave self.new ≡ part_ticked (part_slave self.old) op }
        ensures sound { IsSoundPart self.new }
    {
        let op = inside(self.first, op);
        self.node.tick(op)
    }
}

/// The operation as a child sees it that begins at `first`.
fn inside(first: u64, op: Option<Op>) -> Option<Op>
    requires above { ForSome op (λ r. first ≤ r.adr) }
    ensures inside { result ≡ option_map (less first) op }
{
    match op {
        Some(op) => Some(Op {
            write: op.write,
            adr: op.adr - first,
            dat: op.dat,
            sel: op.sel,
        }),
        None => None,
    }
}
