ghost use Rattle.std.specs.Prelude.{◌≡◌, ◌<◌};

use crate::tally::{Tally, has_all_of};
use soc_turn::{Pass, Turn};
use std::alloc::Global;
use std::sync::Wait;
use std::test::Fail;
use std::thread::join;

const TURNS: u64 = 3000;

// Adds so many entries, each in a turn of its own.
fn add_all<R: Wait>(
    rt: &R,
    alloc: Global,
    turn: &Turn<Tally>,
    mut pass: Pass<Tally>,
    count: u64,
) -> Pass<Tally>
    requires of { pass.turn ≡ turn.now }
    requires number { pass.number < 2 }
    ensures of { result.turn ≡ turn.now }
    ensures number { result.number ≡ pass.number }
{
    let master = pass.number();
    for _ in 0..count {
        let (held, mut tally) = turn.take(rt, pass);
        let _ = tally.add(alloc, master);
        pass = turn.put(held, tally);
    }
    pass
}

#[test]
fn two_masters_take_turns(rt: HostRuntime) -> Result<(), Fail> {
    let alloc = rt.alloc();
    let Ok((turn, mut root)) = Turn::new(alloc, Tally::new(alloc, 7), 2) else {
        return Err("memory".into());
    };
    let first = turn.pass(&mut root);
    let second = turn.pass(&mut root);
    let (first, second) = join(
        &rt,
        || -> Pass<Tally>
            requires { first.turn ≡ turn × first.number < 2 }
            ensures { result.turn ≡ turn }
        { add_all(&rt, alloc, &turn, first, TURNS) },
        || -> Pass<Tally>
            requires { second.turn ≡ turn × second.number < 2 }
            ensures { result.turn ≡ turn }
        { add_all(&rt, alloc, &turn, second, TURNS) },
    );
    let mut passes = Vec::new(alloc);
    passes.push(first)?;
    passes.push(second)?;
    let tally = turn.close(root, passes);
    let both = (
        has_all_of(&tally.journal, 0, TURNS),
        has_all_of(&tally.journal, 1, TURNS),
    );
    assert_eq!(rt; both, (true, true));
    assert_eq!(rt; tally.journal.len(), 6000);
    assert_eq!(rt; tally.name, 7);
    Ok(())
}
