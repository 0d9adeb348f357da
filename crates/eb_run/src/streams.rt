// Answers a capture.
ghost use Rattle.std.specs.Prelude.{◌<◌, length};
ghost use Rattle.eb_run.specs.Run.{run_of};
ghost use Rattle.eb_run.specs.Streams.{ServedOn, AnswersCapture};
ghost use Rattle.eb_run.specs.Files.{ChangesLast};

use crate::lent::{put_last, take_last};
use crate::results::result_of;
use crate::slave::StreamSlave;
use eb_io::{Opened, Sink, World};
use eb_server::Ending;
use eb_text::Fault;
use std::alloc::Global;

// Serves the file that was opened last.
fn serve_last<W: World, L: StreamSlave, O: Sink>(
    alloc: Global,
    world: &mut W,
    slave: &mut L,
    out: &mut O,
) -> Ending
    requires some { 0 < length (W.outside world.old).files }
    requires new { L.is_new slave.old }
    ensures last { ChangesLast (W.outside world.old) (W.outside world.new)
        (λ before now. ServedOn (L.system slave.old) (W.File.reading before) (W.File.reading now)
        (O.writing out.old) (O.writing out.new) (L.entries slave.new) result) }
{
    let (others, mut file) = take_last(alloc, world);
    let ending = slave.serve(&mut file, out);
    put_last(world, others, file);
    ending
}

/// Opens the capture of this name, serves it on a new slave, and leaves the file in the world.
pub fn answer_capture<W: World, L: StreamSlave, O: Sink>(
    alloc: Global,
    capture: &str,
    world: &mut W,
    slave: &mut L,
    out: &mut O,
) -> Result<(), Fault>
    requires new { L.is_new slave.old }
    ensures answers { AnswersCapture
        (run_of W.File.reading (W.outside world.old) (W.outside world.new) (O.writing out.old) (O.writing out.new))
        capture.now (L.system slave.old) result }
{
    match world.open(alloc, capture) {
        Opened::Failed => Err(Fault::ReadFault),
        Opened::NoMemory => Err(Fault::NoMemory),
        Opened::Done => result_of(serve_last(alloc, world, slave, out)),
    }
}
