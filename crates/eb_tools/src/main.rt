//! The program `eb`: the words of the command line, the real files, sockets and standard streams, and the status.
#![tactic(auto)]

use eb_client::run_client;
use eb_io::{RealWorld, Sink, WriteSink};
use eb_net::RealNet;
use eb_run::{Family, Fault, Status, family_of, run_plain, run_shared, write_line};
use eb_serving::{Around, run_serving};
use std::alloc::Global;
use std::env;
use std::io::{self, ErrorKind};
use std::process::ExitCode;

// The words behind the program's name. One that isn't UTF-8 is none of a command.
fn words_of(rt: HostRuntime, alloc: Global) -> Result<Vec<String>, Fault> {
    match env::args(&rt) {
        Err(fault) if fault.kind() == ErrorKind::OutOfMemory => Err(Fault::NoMemory),
        Err(_) => Err(Fault::Usage),
        Ok(args) => match args.skip(1).collect::<Vec<String>>(alloc) {
            Ok(words) => Ok(words),
            Err(_) => Err(Fault::NoMemory),
        },
    }
}

// Tells a fault on standard error.
fn tell<E: Sink>(fault: &Fault, err: &mut E) -> Status {
    let _ = write_line(fault, err);
    fault.status()
}

fn main(rt: HostRuntime) -> ExitCode {
    let alloc = rt.alloc();
    let mut out = WriteSink::new(rt.stdout());
    let mut err = WriteSink::new(rt.stderr());
    let mut around = Around {
        world: RealWorld::new(rt, alloc),
        net: RealNet::new(rt, alloc),
    };
    let status = match words_of(rt, alloc) {
        Ok(words) => match family_of(&words) {
            Family::Plain => run_plain(alloc, &words, &mut around.world, &mut out, &mut err),
            Family::Client => run_client(alloc, &words, &mut around.net, &mut out, &mut err),
            Family::Shared => {
                run_shared(&rt, alloc, &words, &mut around.world, &mut out, &mut err)
            }
            Family::Serving => run_serving(&rt, alloc, &words, &mut around, &mut out, &mut err),
        },
        Err(fault) => tell(&fault, &mut err),
    };
    ExitCode::from(status.0)
}
