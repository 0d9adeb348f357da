// The lines that tell how a server's command ended.
ghost use Rattle.eb_io.specs.Writing.{Wrote};
ghost use Rattle.eb_serving.specs.ServingLines.{serving_line};

use crate::fault::ServingFault;
use eb_io::{Sink, WriteFault, put_all};
use eb_text::write_line;

/// Writes the line on standard error that tells how a server's command ended. Where a write fails, a front of the line
/// went out. It takes no memory.
pub fn write_serving_line<K: Sink>(fault: &ServingFault, sink: &mut K) -> Result<(), WriteFault>
    ensures wrote { Wrote K.writing K.beside_writes sink.old sink.new (serving_line fault.now) result }
{
    match fault {
        ServingFault::Common(fault) => write_line(fault, sink),
        ServingFault::Door => put_all(sink, b"door fault\n"),
    }
}
