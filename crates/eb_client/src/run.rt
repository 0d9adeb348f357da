//! The top call of the commands of a client.
ghost use Rattle.std.specs.Prelude.{◌≡◌, IsSome, map, string_bytes};
ghost use Rattle.eb_client.specs.ClientWords.{task_seen};
ghost use Rattle.eb_client.specs.Tasks.{FitsTask};
ghost use Rattle.eb_client.specs.RanClient.{client_run, client_status_for, dialled, ClientComesTo, RanClient, RunsThere, TaskComesTo, TellsClient};

use crate::command::{ClientCommand, client_command_of};
use crate::fault::ClientFault;
use crate::lines::write_client_line;
use crate::task::client_over;
use eb_io::{Opened, Sink};
use eb_net::Net;
use eb_text::{Fault, Status};
use std::alloc::Global;

// The address that a command dials.
fn address_of(command: ClientCommand<'_>) -> &str
    ensures address { result.now ≡ dialled (task_seen command.entry) }
{
    match command {
        ClientCommand::Ls { address } => address,
        ClientCommand::Read { address, .. } => address,
        ClientCommand::Write { address, .. } => address,
    }
}

// Runs a command over the link of a net that has one, and puts it back.
fn run_there<N: Net, O: Sink>(
    alloc: Global,
    command: ClientCommand<'_>,
    net: &mut N,
    out: &mut O,
) -> Result<(), ClientFault>
    requires fits { FitsTask (task_seen command) }
    requires there { IsSome (N.network net.old).link }
    ensures runs { RunsThere (client_run N.Link.reading N.Link.writing (N.network net.old) (N.network net.new)
        O.writing O.beside_writes out.old out.new) (task_seen command.entry) result }
{
    let Some(link) = net.link() else {
        unreachable!();
    };
    let (left, ran) = client_over(alloc, link, command, out);
    net.put_link(left);
    ran
}

// Dials what a command names, and runs it over that link.
fn run_command<N: Net, O: Sink>(
    alloc: Global,
    command: ClientCommand<'_>,
    net: &mut N,
    out: &mut O,
) -> Result<(), ClientFault>
    requires fits { FitsTask (task_seen command) }
    ensures comes_to { TaskComesTo (client_run N.Link.reading N.Link.writing (N.network net.old) (N.network net.new)
        O.writing O.beside_writes out.old out.new) (task_seen command.entry) result }
{
    match net.dial(alloc, address_of(command)) {
        Opened::Done => run_there(alloc, command, net, out),
        Opened::Failed => Err(ClientFault::Door),
        Opened::NoMemory => Err(ClientFault::Common(Fault::NoMemory)),
    }
}

// Runs the command that the words are.
fn run_words<N: Net, O: Sink>(
    alloc: Global,
    words: &[String],
    net: &mut N,
    out: &mut O,
) -> Result<(), ClientFault>
    ensures comes_to { ClientComesTo (client_run N.Link.reading N.Link.writing (N.network net.old) (N.network net.new)
        O.writing O.beside_writes out.old out.new) (map string_bytes words.now) result }
{
    match client_command_of(words) {
        None => Err(ClientFault::Common(Fault::Usage)),
        Some(command) => run_command(alloc, command, net, out),
    }
}

// The status of a result, whose fault is told on standard error.
fn tell<E: Sink>(ran: &Result<(), ClientFault>, err: &mut E) -> Status
    ensures status { result ≡ client_status_for ran.now }
    ensures tells { TellsClient (E.writing err.old) (E.writing err.new) ran.now }
{
    match ran {
        Ok(()) => Status::OK,
        Err(fault) => {
            let _ = write_client_line(fault, err);
            fault.status()
        }
    }
}

/// Runs the command of a client that the words are: it dials the address that they name, and what it writes goes to
/// `out`, and the line of its fault to `err`.
///
/// The link that was dialled stands in the net afterwards, as the command left it. A fault in writing `err` changes no
/// status.
///
/// The clause `ran` says of each status what was met and done (`ok`, `usage`, `no_task`, `door`, `read_fault`,
/// `write_fault`, `peer`, `bus_error`, `walk`, `no_memory`), that there is no other (`listed`), what the net was asked
/// for (`asked`), and what the words came to and standard error gets (`came`).
pub fn run_client<N: Net, O: Sink, E: Sink>(
    alloc: Global,
    words: &[String],
    net: &mut N,
    out: &mut O,
    err: &mut E,
) -> Status
    ensures ran { RanClient (client_run N.Link.reading N.Link.writing (N.network net.old) (N.network net.new)
        O.writing O.beside_writes out.old out.new) (E.writing err.old) (E.writing err.new)
        (map string_bytes words.now) result }
{
    let ran = run_words(alloc, words, net, out);
    tell(&ran, err)
}
