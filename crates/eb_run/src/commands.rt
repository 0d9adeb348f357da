// The commands, behind their words.
ghost use Rattle.std.specs.Prelude.{◌≡◌, map, string_bytes};
ghost use Rattle.eb_text.specs.Command.{AnswerRam, Answer, Build, Tour, IsRamSize, command_seen};
ghost use Rattle.eb_run.specs.Run.{run_of};
ghost use Rattle.eb_run.specs.Commands.{ComesTo, SendsText};
ghost use Rattle.eb_run.specs.Top.{IsAlone, WordsComeTo, family};
ghost use Rattle.eb_run.specs.declared.plain.Family.TheVariants.{Plain};

use crate::files::read_description;
use crate::load::load;
use crate::sim::sim;
use crate::port_slave::PortSlave;
use crate::slave::PlainSlave;
use crate::streams::answer_capture;
use eb_base::Width;
use eb_io::{Sink, World, put_all};
use eb_server::Ending;
use eb_text::{Command, Fault, command_of, write_build, write_listing};
use eb_tour::tour_described;
use sdb_build::images;
use soc_bus::Bus;
use soc_machine::Machine;
use soc_trail::Unkept;
use std::alloc::Global;

// `answer --ram N CAPTURE`
fn answer_ram<W: World, O: Sink>(
    alloc: Global,
    octets: u32,
    capture: &str,
    world: &mut W,
    out: &mut O,
) -> Result<(), Fault>
    requires size { IsRamSize octets }
    ensures comes_to { ComesTo
        (run_of W.File.reading (W.outside world.old) (W.outside world.new) (O.writing out.old) (O.writing out.new))
        (AnswerRam octets capture.now) result }
{
    let Ok(machine) = Machine::ram(alloc, octets, Width::W32) else {
        return Err(Fault::NoMemory);
    };
    let Ok(mut slave) = PlainSlave::new(alloc, Unkept::new(), machine, 0) else {
        return Err(Fault::NoMemory);
    };
    answer_capture(alloc, capture, world, &mut slave, out)
}

// `answer DESC CAPTURE`
fn answer<W: World, O: Sink>(
    alloc: Global,
    description: &str,
    capture: &str,
    world: &mut W,
    out: &mut O,
) -> Result<(), Fault>
    ensures comes_to { ComesTo
        (run_of W.File.reading (W.outside world.old) (W.outside world.new) (O.writing out.old) (O.writing out.new))
        (Answer description.now capture.now) result }
{
    let described = read_description(alloc, description, world)?;
    let Ok(mut bus) = Bus::build(alloc, soc_bus::Unkept::new(), &described) else {
        return Err(Fault::NoMemory);
    };
    let Ok(mut slave) = PortSlave::new(alloc, &mut bus, &described) else {
        return Err(Fault::NoMemory);
    };
    answer_capture(alloc, capture, world, &mut slave, out)
}

// `build DESC`
fn build<W: World, O: Sink>(
    alloc: Global,
    description: &str,
    world: &mut W,
    out: &mut O,
) -> Result<(), Fault>
    ensures comes_to { ComesTo
        (run_of W.File.reading (W.outside world.old) (W.outside world.new) (O.writing out.old) (O.writing out.new))
        (Build description.now) result }
{
    let found = read_description(alloc, description, world)?;
    let Ok(images) = images(alloc, &found) else {
        return Err(Fault::NoMemory);
    };
    write_build(&images, out)?;
    Ok(())
}

// `tour DESC`
fn tour<W: World, O: Sink>(
    alloc: Global,
    description: &str,
    world: &mut W,
    out: &mut O,
) -> Result<(), Fault>
    ensures comes_to { ComesTo
        (run_of W.File.reading (W.outside world.old) (W.outside world.new) (O.writing out.old) (O.writing out.new))
        (Tour description.now) result }
{
    let found = read_description(alloc, description, world)?;
    let Ok(tree) = tour_described(alloc, &found) else {
        return Err(Fault::NoMemory);
    };
    write_listing(&tree, out)?;
    Ok(())
}

// `--help` and `--version`
fn show<O: Sink>(text: &[u8], out: &mut O) -> Result<(), Fault>
    ensures shows { SendsText (O.writing out.old) (O.writing out.new) text.now result }
{
    put_all(out, text)?;
    Ok(())
}

// A command that serves no streams beside each other.
fn run_command<W: World, O: Sink>(
    alloc: Global,
    command: Command<'_>,
    world: &mut W,
    out: &mut O,
) -> Result<(), Fault>
    requires alone { IsAlone (command_seen command) }
    ensures comes_to { ComesTo
        (run_of W.File.reading (W.outside world.old) (W.outside world.new) (O.writing out.old) (O.writing out.new))
        (command_seen command.entry) result }
{
    match command {
        Command::AnswerRam { octets, capture } => answer_ram(alloc, octets, capture, world, out),
        Command::Answer {
            description,
            capture,
        } => answer(alloc, description, capture, world, out),
        Command::Sim {
            description,
            script,
            wave,
        } => sim(alloc, (description, script), wave, world, out),
        Command::Build { description } => build(alloc, description, world, out),
        Command::Tour { description } => tour(alloc, description, world, out),
        Command::Load { start, cycles } => load(alloc, start, cycles, out),
        Command::Replay { .. } => unreachable!(),
        Command::Show(text) => show(text, out),
    }
}

/// Runs the command that the words are, where it waits for nobody.
pub fn run_words<W: World, O: Sink>(
    alloc: Global,
    words: &[String],
    world: &mut W,
    out: &mut O,
) -> Result<Ending, Fault>
    requires plain { family (map string_bytes words.now) ≡ Plain }
    ensures comes_to { WordsComeTo
        (run_of W.File.reading (W.outside world.old) (W.outside world.new) (O.writing out.old) (O.writing out.new))
        (map string_bytes words.now) result }
{
    let Some(command) = command_of(words) else {
        return Err(Fault::Usage);
    };
    run_command(alloc, command, world, out)?;
    Ok(Ending::Clean)
}
