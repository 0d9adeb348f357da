// Runs a script on the bus of a description, clock by clock.
ghost use Rattle.std.specs.Prelude.{◌≡◌, true};
ghost use Rattle.eb_io.specs.Writing.{Wrote};
ghost use Rattle.soc_sim.specs.Watched.{WatchedState};
ghost use Rattle.eb_text.specs.Command.{Sim};
ghost use Rattle.eb_run.specs.Run.{run_of};
ghost use Rattle.eb_run.specs.Commands.{ComesTo, run_text};

use crate::files::{read_description, read_script};
use eb_io::{Sink, World, WriteFault};
use eb_text::Fault;
use soc_journal::Journal;
use soc_sim::{WatchedBus, run_script};
use std::alloc::Global;

// Writes the wave, and then the journal.
fn write_both<K: Sink>(bus: &WatchedBus<Journal>, sink: &mut K) -> Result<(), WriteFault>
    ensures wrote { Wrote K.writing K.beside_writes sink.old sink.new
        (run_text true bus.now.rows bus.now.core.journal) result }
{
    bus.wave().write(sink)?;
    bus.journal().write(sink)
}

// Writes the journal, behind the wave if that is asked for.
fn write_run<K: Sink>(bus: &WatchedBus<Journal>, wave: bool, sink: &mut K) -> Result<(), WriteFault>
    ensures wrote { Wrote K.writing K.beside_writes sink.old sink.new
        (run_text wave bus.now.rows bus.now.core.journal) result }
{
    if wave {
        write_both(bus, sink)
    } else {
        bus.journal().write(sink)
    }
}

/// `sim DESC SCRIPT`, or with `--wave`. The names are those of the description and of the script.
pub fn sim<W: World, O: Sink>(
    alloc: Global,
    names: (&str, &str),
    wave: bool,
    world: &mut W,
    out: &mut O,
) -> Result<(), Fault>
    ensures comes_to { ComesTo
        (run_of W.File.reading (W.outside world.old) (W.outside world.new) (O.writing out.old) (O.writing out.new))
        (Sim names.entry.0.now names.entry.1.now wave) result }
{
    let described = read_description(alloc, names.0, world)?;
    let script = read_script(alloc, names.1, described.masters, world)?;
    let Ok(bus) = run_script(alloc, Journal::new(alloc), &described, &script) else {
        return Err(Fault::NoMemory);
    };
    write_run(&bus, wave, out)?;
    Ok(())
}
