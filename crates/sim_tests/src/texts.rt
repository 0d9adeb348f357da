use eb_base::Width;
use eb_io::MemSink;
use soc_desc::read;
use soc_journal::Journal;
use soc_script::read_script;
use soc_sim::{WatchedBus, run_script};
use std::alloc::Global;
use std::test::Fail;

// The most octets of a text.
const ROOM: usize = 8_192;

/// The bus of a description after a script was run on it.
pub fn ran(alloc: Global, description: &str, script: &[u8]) -> Result<WatchedBus<Journal>, Fail> {
    let Ok(description) = read(alloc, description.as_bytes()) else {
        return Err(Fail::from("description"));
    };
    let Ok(script) = read_script(alloc, script, description.masters, Width::W32) else {
        return Err(Fail::from("script"));
    };
    soc_sim::laws::scripts();
    let Ok(bus) = run_script(alloc, Journal::new(alloc), &description, &script) else {
        return Err(Fail::from("memory"));
    };
    Ok(bus)
}

/// The journal of a bus.
pub fn journal_of(alloc: Global, bus: &WatchedBus<Journal>) -> Result<MemSink, Fail> {
    let mut sink = MemSink::new(alloc, ROOM, ROOM, Vec::new(alloc))
        .ok()
        .ok_or("memory")?;
    bus.journal().write(&mut sink).ok().ok_or("journal")?;
    Ok(sink)
}

/// The wave of a bus.
pub fn wave_of(alloc: Global, bus: &WatchedBus<Journal>) -> Result<MemSink, Fail> {
    let mut sink = MemSink::new(alloc, ROOM, ROOM, Vec::new(alloc))
        .ok()
        .ok_or("memory")?;
    bus.wave().write(&mut sink).ok().ok_or("wave")?;
    Ok(sink)
}
