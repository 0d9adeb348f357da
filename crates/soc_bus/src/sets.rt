//! Sets of top slaves.
ghost use Rattle.std.specs.Prelude.{◌≡◌, ◌≤◌, ◌<◌, ◌^◌, ◌-◌, length};
ghost use Rattle.std.specs.Option.{ForSome};
ghost use Rattle.wb_tree.specs.Tree.{node_slave, IsSound};
ghost use Rattle.wb_crossbar.specs.Inside.{crossbar_of, IsCrossbar};
ghost use Rattle.wb_signals.specs.Request.{Request};
ghost use Rattle.wb_crossbar.specs.Crossbar.{target_of};
ghost use Rattle.soc_core.specs.Built.{one_slave, slaves_asked};

use wb_crossbar::Crossbar;
use wb_signals::Op;
use wb_tree::Node;

/// The top slaves that operations go to.
pub fn asked(crossbar: &Crossbar<Node>, ops: &[Op]) -> u128
    requires sound { IsCrossbar node_slave IsSound crossbar.now }
    requires few { length (crossbar_of node_slave crossbar.now).children ≤ 128 }
    ensures asked { result
        ≡ slaves_asked (λ (r : Request). target_of (crossbar_of node_slave crossbar.now).children r.adr) ops.now }
{
    let mut set = 0;
    for op in ops {
        set |= one(crossbar.target(op.adr));
    }
    set
}

/// The set with this slave alone.
fn one(slave: Option<u32>) -> u128
    requires below { ForSome slave (λ k. k < 128) }
    ensures one { result ≡ one_slave slave }
{
    match slave {
        Some(k) => 1 << k,
        None => 0,
    }
}

/// The set of so many slaves.
pub fn all_of(count: usize) -> u128
    requires few { count ≤ 128 }
    ensures all { result ≡ 2 ^ count - 1 }
{
    if count < 128 {
        (1 << count) - 1
    } else {
        u128::MAX
    }
}
