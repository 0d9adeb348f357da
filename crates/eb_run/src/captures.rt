// Replays captures beside each other on the bus of a description.
ghost use Rattle.std.specs.Prelude.{◌≡◌, ◌<◌, ◌≤◌, map, string_bytes, length};
ghost use Rattle.soc_desc.specs.Accepted.{IsAccepted};
ghost use Rattle.eb_replay.specs.Text.{first_unclean, replay_text};
ghost use Rattle.eb_text.specs.Command.{Replay};
ghost use Rattle.eb_run.specs.Run.{run_of};
ghost use Rattle.eb_run.specs.Captures.{HasFresh, OpensAll, ReplaysLast, SendsEnd};
ghost use Rattle.eb_run.specs.Top.{ComesToEnd, WordsComeTo, family};
ghost use Rattle.eb_run.specs.declared.plain.Family.TheVariants.{Shared};

use crate::files::read_description;
use crate::lent::{put_last_files, take_last_files};
use eb_base::NoMemory;
use eb_io::{Opened, Sink, World};
use eb_replay::{Replayed, replay};
use eb_server::Ending;
use eb_text::{Fault, replay_of};
use soc_desc::Description;
use std::alloc::Global;
use std::sync::Wait;
use std::thread::Threads;

// Opens the files of these names, in order, up to the first that can't be opened.
fn open_all<W: World>(alloc: Global, names: &[String], world: &mut W) -> Result<(), Fault>
    ensures opens { OpensAll W.File.reading (W.outside world.old) (W.outside world.new)
        (map string_bytes names.now) result }
{
    for name in names {
        match world.open(alloc, name.as_str()) {
            Opened::Done => {}
            Opened::Failed => return Err(Fault::ReadFault),
            Opened::NoMemory => return Err(Fault::NoMemory),
        }
    }
    Ok(())
}

// Replays the files that were opened last, so many of them, and leaves them in the world.
fn replay_last<R: Threads + Wait + Sync, W: World>(
    rt: &R,
    alloc: Global,
    description: &Description,
    count: usize,
    world: &mut W,
) -> Result<Replayed, NoMemory>
    requires accepted { IsAccepted description.now }
    requires some { 0 < count }
    requires few { count ≤ description.now.masters }
    requires fresh { HasFresh W.File.reading count (W.outside world.old) }
    ensures replays { ReplaysLast W.File.reading description.now count (W.outside world.old) (W.outside world.new)
        result }
{
    let (others, files) = take_last_files(alloc, count, world)?;
    let (files, ran) = replay(rt, alloc, description, files);
    put_last_files(world, others, files);
    ran
}

// Writes the text of a replay. The first ending that isn't clean is the answer, also where a write fails.
fn write_replayed<O: Sink>(replayed: &Replayed, out: &mut O) -> Result<Ending, Fault>
    ensures sends { SendsEnd (O.writing out.old) (O.writing out.new) (replay_text replayed.now)
        (first_unclean replayed.now.ports) result }
{
    let wrote = replayed.write(out);
    match replayed.first_unclean() {
        Ending::Clean => {
            wrote?;
            Ok(Ending::Clean)
        }
        ending => Ok(ending),
    }
}

// `replay DESC CAPTURE..`
fn replay_captures<R: Threads + Wait + Sync, W: World, O: Sink>(
    rt: &R,
    alloc: Global,
    description: &str,
    captures: &[String],
    world: &mut W,
    out: &mut O,
) -> Result<Ending, Fault>
    requires some { 0 < length captures.now }
    ensures comes_to { ComesToEnd
        (run_of W.File.reading (W.outside world.old) (W.outside world.new) (O.writing out.old) (O.writing out.new))
        (Replay description.now (map string_bytes captures.now)) result }
{
    let described = read_description(alloc, description, world)?;
    if captures.len() > usize::from(described.masters) {
        return Err(Fault::Usage);
    }
    open_all(alloc, captures, world)?;
    match replay_last(rt, alloc, &described, captures.len(), world) {
        Ok(replayed) => write_replayed(&replayed, out),
        Err(NoMemory) => Err(Fault::NoMemory),
    }
}

/// Runs the command that the words are, where it waits for other threads.
pub fn run_shared_words<R: Threads + Wait + Sync, W: World, O: Sink>(
    rt: &R,
    alloc: Global,
    words: &[String],
    world: &mut W,
    out: &mut O,
) -> Result<Ending, Fault>
    requires shared { family (map string_bytes words.now) ≡ Shared }
    ensures comes_to { WordsComeTo
        (run_of W.File.reading (W.outside world.old) (W.outside world.new) (O.writing out.old) (O.writing out.new))
        (map string_bytes words.now) result }
{
    let Some((description, captures)) = replay_of(words) else {
        return Err(Fault::Usage);
    };
    replay_captures(rt, alloc, description, captures, world, out)
}
