//! A port that is served to the commands of a client, over loopback.
use crate::ports::served;
use eb_base::NoMemory;
use eb_client::run_client;
use eb_io::{MemSink, Opened};
use eb_net::{Net, RealNet, TcpDoor};
use eb_samples::DEEP;
use eb_text::Status;
use std::alloc::{AllocError, Global};
use std::test::Fail;
use std::thread::join;

// Ports of which most are free, and how a client on this machine dials them.
static PORTS: [(u16, &str); 4] = [
    (28_529, "127.0.0.1:28529"),
    (28_541, "127.0.0.1:28541"),
    (28_559, "127.0.0.1:28559"),
    (28_573, "127.0.0.1:28573"),
];

// A door at the first of the ports that is free, and how it is dialled.
fn listen(rt: HostRuntime, alloc: Global) -> Option<(Vec<TcpDoor>, &'static str)> {
    let mut net = RealNet::new(rt, alloc);
    for row in &PORTS {
        let (port, address) = *row;
        if net.listen(port) == Opened::Done {
            return Some((net.doors(alloc), address));
        }
    }
    None
}

fn words_of(alloc: Global, words: &[&str]) -> Result<Vec<String>, AllocError> {
    let mut all = Vec::new(alloc);
    for word in words {
        all.push(String::from_str(alloc, word)?)?;
    }
    Ok(all)
}

// The status of a client's words, and what they showed. Its net is closed then, and so is the link that it dialled.
fn ask(
    rt: HostRuntime,
    alloc: Global,
    words: &[&str],
) -> Result<(Status, MemSink, MemSink), NoMemory> {
    let words = words_of(alloc, words)?;
    let mut net = RealNet::new(rt, alloc);
    let mut out = MemSink::new(alloc, 64, 64, Vec::new(alloc))?;
    let mut err = MemSink::new(alloc, 64, 64, Vec::new(alloc))?;
    let status = run_client(alloc, &words, &mut net, &mut out, &mut err);
    Ok((status, out, err))
}

// One client writes a word, and the next one reads it. The door is made before they dial, so that they wait for it.
#[test]
fn one_client_after_another(rt: HostRuntime) -> Result<(), Fail> {
    let alloc = rt.alloc();
    let Some((doors, address)) = listen(rt, alloc) else {
        return Err("no port".into());
    };
    let (served, (wrote, read)) = join(
        &rt,
        move || served(&rt, alloc, DEEP, doors, 2),
        move || {
            let wrote = ask(rt, alloc, &["write", address, "0x10", "0xDEADBEEF"]);
            (wrote, ask(rt, alloc, &["read", address, "0x10"]))
        },
    );
    let (_, text, unclean) = served?;
    let ((wrote, _, _), (read, shown, err)) = (wrote?, read?);
    assert_eq!(rt; (wrote, read), (Status::OK, Status::OK));
    assert_eq!(rt;
        (shown.octets(), err.octets()),
        (b"DEADBEEF\n".as_slice(), b"".as_slice())
    );
    assert_eq!(rt; unclean, None);
    assert_eq!(rt;
        text.octets(),
        b"port 0 connection 0 clean\nport 0 connection 1 clean\njournal\n\
        cycle 0 whole\nw 0000000000000010 0F 00000000DEADBEEF ack\n\
        cycle 0 whole\nr 0000000000000010 0F ack 00000000DEADBEEF\n"
            .as_slice()
    );
    Ok(())
}
