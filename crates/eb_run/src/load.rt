// Answers a generated stream.
ghost use Rattle.std.specs.Prelude.{IfOk};
ghost use Rattle.eb_base.specs.declared.width.Width.TheVariants.{W32};
ghost use Rattle.eb_load.specs.Summary.{summary_text};
ghost use Rattle.soc_machine.specs.Machine.{built_with_ram};
ghost use Rattle.eb_run.specs.Slave.{IsMade};
ghost use Rattle.eb_run.specs.Commands.{MakesText, Summed};

use crate::slave::{PlainSlave, StreamSlave};
use eb_base::{NoMemory, Width};
use eb_io::{CountSink, Sink};
use eb_load::{Counted, LoadSource, Summary};
use eb_server::Ending;
use eb_text::Fault;
use soc_machine::Machine;
use soc_trail::Unkept;
use std::alloc::Global;

// How many octets the RAM has.
const RAM: u32 = 65_536;

// Serves a generated stream and counts.
fn summary_of(
    alloc: Global,
    start: u32,
    cycles: u32,
    slave: &mut PlainSlave<Counted<Unkept>>,
) -> Result<Summary, NoMemory>
    requires made { IsMade (built_with_ram W32 65536) 0 slave.old }
    ensures summed { IfOk result (λ s. Summed start cycles (summary_text s)) }
{
    let mut source = LoadSource::new(start, cycles);
    let mut replies = CountSink::new();
    match slave.serve(&mut source, &mut replies) {
        Ending::Clean => Ok(Summary::of(slave.recorder(), source.given(), replies.count())),
        Ending::NoMemory => Err(NoMemory),
        Ending::WriteFault => unreachable!(),
        Ending::Truncated(_) => unreachable!(),
        Ending::Malformed(..) => unreachable!(),
        Ending::ReadFault => unreachable!(),
        Ending::TooLong => unreachable!(),
    }
}

/// Answers a generated stream on a RAM, and writes the summary of that.
pub fn load<O: Sink>(alloc: Global, start: u32, cycles: u32, out: &mut O) -> Result<(), Fault>
    ensures makes { MakesText (O.writing out.old) (O.writing out.new) (Summed start cycles) result }
{
    let Ok(machine) = Machine::ram(alloc, RAM, Width::W32) else {
        return Err(Fault::NoMemory);
    };
    let Ok(mut slave) = PlainSlave::new(alloc, Counted::new(Unkept::new()), machine, 0) else {
        return Err(Fault::NoMemory);
    };
    let Ok(summary) = summary_of(alloc, start, cycles, &mut slave) else {
        return Err(Fault::NoMemory);
    };
    summary.write(out)?;
    Ok(())
}
