// The top call of the commands that wait for other threads.
ghost use Rattle.std.specs.Prelude.{◌≡◌, map, string_bytes};
ghost use Rattle.eb_run.specs.Run.{run_of};
ghost use Rattle.eb_run.specs.Top.{family, RanWords};
ghost use Rattle.eb_run.specs.declared.plain.Family.TheVariants.{Shared};

use crate::captures::run_shared_words;
use crate::results::tell;
use eb_io::{Sink, World};
use eb_text::Status;
use std::alloc::Global;
use std::sync::Wait;
use std::thread::Threads;

/// Runs the command that the words are, as `run_plain` does, where it waits for other threads: `replay`.
///
/// The clause `ran` is that of `run_plain`, where this returns. Each capture is served in a thread of its own, as one
/// master of the bus. Their endings stand in the output, and the first one that isn't clean gives the status.
pub fn run_shared<R: Threads + Wait + Sync, W: World, O: Sink, E: Sink>(
    rt: &R,
    alloc: Global,
    words: &[String],
    world: &mut W,
    out: &mut O,
    err: &mut E,
) -> Status
    requires shared { family (map string_bytes words.now) ≡ Shared }
    ensures ran { RanWords
        (run_of W.File.reading (W.outside world.old) (W.outside world.new) (O.writing out.old) (O.writing out.new))
        (E.writing err.old) (E.writing err.new) (map string_bytes words.now) result }
{
    let ran = run_shared_words(rt, alloc, words, world, out);
    tell(&ran, err)
}
