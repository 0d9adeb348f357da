//! A command of a client over a link.
ghost use Rattle.eb_host.specs.Exchange.{duplex};
ghost use Rattle.eb_client.specs.ClientWords.{task_seen};
ghost use Rattle.eb_client.specs.Tasks.{DoesTask, FitsTask};

use crate::access::{read_over, write_over};
use crate::command::ClientCommand;
use crate::fault::ClientFault;
use crate::listing::ls_over;
use eb_io::{Link, Sink};
use std::alloc::Global;

/// Runs a command of a client over a link to whom its address names, and shows the answer on `out`. It hands the link
/// back.
pub fn client_over<L: Link, O: Sink>(
    alloc: Global,
    link: L,
    command: ClientCommand<'_>,
    out: &mut O,
) -> (L, Result<(), ClientFault>)
    requires fits { FitsTask (task_seen command) }
    ensures does { DoesTask O.writing O.beside_writes (task_seen command.entry)
        (duplex (L.reading link) (L.writing link)) (duplex (L.reading result.0) (L.writing result.0))
        out.old out.new result.1 }
{
    match command {
        ClientCommand::Ls { .. } => ls_over(alloc, link, out),
        ClientCommand::Read { place, width, .. } => read_over(alloc, link, place, width, out),
        ClientCommand::Write {
            place,
            width,
            value,
            ..
        } => write_over(alloc, link, place, width, value),
    }
}
