//! A node of a tree: a device, or a bus.
ghost use Rattle.std.specs.Prelude.{◌≡◌, ◌≤◌, ◌+◌, true, false, [], map, IfOk};
ghost use Rattle.eb_base.specs.declared.width.Width.TheVariants.{W32};
ghost use Rattle.wb_signals.specs.Parts.{child_of, AllFitIn, AllQuiet};
ghost use Rattle.wb_signals.specs.Turn.{bus_slave};
ghost use Rattle.wb_signals.specs.Narrow.{AllOf32, narrow_slave};
ghost use Rattle.wb_signals.specs.declared.debtor.Debtor.TheVariants.{Nobody};
ghost use Rattle.wb_tree.specs.Leaves.{leaf_slave};
ghost use Rattle.wb_tree.specs.Tree.{node_slave, part_slave, IsSound, AllSound};

use crate::{Branch, Part};
use eb_base::{NoMemory, Width};
use std::alloc::Global;
use wb_adapter::{FromClassic, ToClassic};
use wb_device::{Device, Held, Piped};
use wb_signals::{Answer, Clocked, Debtor, Op};

/// A device by itself, behind one adapter or behind two; a bus; or a bus of 32 data bits behind a port of 64.
#[cycle(tree)]
#[derive(Drop)]
pub enum Node {
    Pipe(Piped),
    Classic(FromClassic<Held>),
    Wrapped(FromClassic<ToClassic<Piped>>),
    Bus(Box<Branch>),
    Narrow(Box<Branch>),
}

impl Clocked for Node {
    ghost use Rattle.wb_tree.specs.Tree.{node_slave, IsSound};

    ghost slave = { node_slave };

    ghost is_sound = { IsSound };

    #[cycle(stalled)]
    fn stalled(&self, op: &Op) -> bool {
        match self {
            Node::Pipe(piped) => piped.stalled(op),
            Node::Classic(slave) => slave.stalled(op),
            Node::Wrapped(slave) => slave.stalled(op),
            Node::Bus(branch) => branch.stalled(op),
            Node::Narrow(branch) => branch.narrow_stalled(op),
        }
    }

    fn owes(&self) -> bool {
        match self {
            Node::Pipe(piped) => piped.owes(),
            Node::Classic(slave) => slave.owes(),
            Node::Wrapped(slave) => slave.owes(),
            Node::Bus(branch) => branch.owes(),
            Node::Narrow(branch) => branch.owes(),
        }
    }

    #[cycle(tick)]
    fn tick(&mut self, op: Option<Op>) -> Option<Answer> {
        match self {
            Node::Pipe(piped) => piped.tick(op),
            Node::Classic(slave) => slave.tick(op),
            Node::Wrapped(slave) => slave.tick(op),
            Node::Bus(branch) => branch.tick(op),
            Node::Narrow(branch) => branch.narrow_tick(op),
        }
    }
}

impl Node {
    /// A device that is pipelined by itself.
    pub fn pipelined(device: Device, wait: u8) -> Node
        requires wait { wait ≤ 15 }
        ensures slave { node_slave result ≡ leaf_slave device wait false }
        ensures sound { IsSound result }
    {
        Node::Pipe(Piped::new(device, wait))
    }

    /// A classic device behind an adapter.
    pub fn classic(device: Device, wait: u8) -> Node
        requires wait { wait ≤ 15 }
        ensures slave { node_slave result ≡ leaf_slave device (wait + 1) true }
        ensures sound { IsSound result }
    {
        Node::Classic(FromClassic::new(Held::new(device, wait)))
    }

    /// A pipelined device behind a classic adapter and back.
    pub fn wrapped(device: Device, wait: u8) -> Node
        requires wait { wait ≤ 15 }
        ensures slave { node_slave result ≡ leaf_slave device (wait + 2) true }
        ensures sound { IsSound result }
    {
        Node::Wrapped(FromClassic::new(ToClassic::new(Piped::new(device, wait))))
    }

    /// A bus of this width with these children, which owe nothing.
    pub fn bus(alloc: Global, parts: Vec<Part>, bus: Width) -> Result<Node, NoMemory>
        requires sound { AllSound parts.items }
        requires fits { AllFitIn bus (map part_slave parts.items) }
        requires quiet { AllQuiet (map part_slave parts.items) }
        ensures slave { IfOk result (λ n. node_slave n ≡ bus_slave bus (map part_slave parts.items) Nobody) }
        ensures sound { IfOk result IsSound }
    {
        let branch = Branch::new(alloc, parts, bus, 0)?;
        Ok(Node::Bus(Box::new(alloc, branch)?))
    }

    /// A bus of 32 data bits with these children, which owe nothing, behind a port of 64.
    pub fn narrow(alloc: Global, parts: Vec<Part>) -> Result<Node, NoMemory>
        requires sound { AllSound parts.items }
        requires fits { AllFitIn W32 (map part_slave parts.items) }
        requires of { AllOf32 (map child_of (map part_slave parts.items)) }
        requires quiet { AllQuiet (map part_slave parts.items) }
        ensures slave { IfOk result (λ n. node_slave n ≡ narrow_slave (map part_slave parts.items) Nobody []) }
        ensures sound { IfOk result IsSound }
    {
        let branch = Branch::new(alloc, parts, Width::W32, 16)?;
        Ok(Node::Narrow(Box::new(alloc, branch)?))
    }
}
