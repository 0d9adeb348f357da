//! Two captures whose files each give their end only after the other's file is asked for it.
ghost use Rattle.std.specs.Prelude.{◌≡◌, ◌<◌, ◌++◌, ◌∷◌, [], map, string_bytes, length, vec_len, vec_capacity, OnOk, OnErr};
ghost use Rattle.eb_io.specs.Reading.{Reads};
ghost use Rattle.replay_tests.specs.Untold.{no_reading, all_opened};

use crate::meeting::Meeting;
use eb_base::NoMemory;
use eb_io::{CountSink, Got, MemSource, Opened, Source, World};
use eb_run::{Family, Status, family_of, run_shared};
use eb_samples::SOC;
use std::alloc::{AllocError, Global};
use std::mem;
use std::sync::{Arc, Wait};
use std::test::Fail;
use std::thread::Threads;

// A header alone.
const HEADER: [u8; 4] = [0x4E, 0x6F, 0x10, 0x44];

// The most octets of a read.
const MOST: usize = 4096;

const REPLAY: [&str; 4] = ["replay", "soc", "one", "two"];

/// A file that comes to the meeting in its second read, and waits there. Where it has none, it waits for nobody. It
/// tells no octets, and no read fails.
#[derive(Drop)]
struct MeetFile {
    source: MemSource,
    reads: u64,
    meeting: Option<Arc<Meeting, Global>>,
}

impl Source for MeetFile {
    ghost reading = { λ _. no_reading };

    fn read(&mut self, room: &mut [u8]) -> Got
        requires some_room { 0 < length room.old }
        ensures reads { Reads no_reading no_reading room.new result }
    {
        self.reads = self.reads.saturating_add(1);
        if self.reads == 2 {
            if let Some(meeting) = &self.meeting {
                meeting.come();
                meeting.wait();
            }
        }
        match self.source.read(room) {
            Got::Some(count) => Got::Some(count),
            _ => Got::End,
        }
    }
}

/// A world with SOC's description by the name `soc`, and a capture of a header alone by any other. No open fails.
#[derive(Drop)]
struct MeetWorld {
    meeting: Arc<Meeting, Global>,
    asked: Vec<String>,
    files: Vec<MeetFile>,
}

impl MeetWorld {
    fn new(alloc: Global, meeting: Arc<Meeting, Global>) -> MeetWorld {
        MeetWorld {
            meeting,
            asked: Vec::new(alloc),
            files: Vec::new(alloc),
        }
    }

    // The file of a name.
    fn file_of(&self, alloc: Global, name: &str) -> Result<MeetFile, NoMemory> {
        let (octets, meeting) = if name == "soc" {
            (SOC.as_bytes(), None)
        } else {
            (HEADER.as_slice(), Some(Arc::try_clone(&self.meeting)?))
        };
        Ok(MeetFile {
            source: MemSource::new(Vec::from_slice(alloc, octets)?, MOST, Vec::new(alloc)),
            reads: 0,
            meeting,
        })
    }

    // Notes a name, and makes room for its file.
    fn note(&mut self, alloc: Global, name: &str) -> Result<(), NoMemory>
        ensures asked { OnOk result (map string_bytes self.new.asked.items
            ≡ map string_bytes self.old.asked.items ++ name.now ∷ []) }
        ensures files { self.new.files.items ≡ self.old.files.items }
        ensures room { OnOk result (vec_len self.new.files < vec_capacity self.new.files) }
        ensures kept { OnErr result (self.new.asked.items ≡ self.old.asked.items) }
    {
        let name = String::from_str(alloc, name)?;
        self.files.reserve(1)?;
        self.asked.push(name)?;
        Ok(())
    }
}

impl World for MeetWorld {
    type File = MeetFile;

    ghost outside = { λ w. all_opened (map string_bytes w.asked.items) w.files.items };

    fn open(&mut self, alloc: Global, name: &str) -> Opened {
        let Ok(file) = self.file_of(alloc, name) else {
            return Opened::NoMemory;
        };
        if self.note(alloc, name).is_err() {
            return Opened::NoMemory;
        }
        self.files.push_reserved(file);
        Opened::Done
    }

    fn files(&mut self, alloc: Global) -> Vec<MeetFile> {
        mem::replace(&mut self.files, Vec::new(alloc))
    }

    fn put_files(&mut self, files: Vec<MeetFile>)
        requires none_left { self.old.files.items ≡ [] }
        ensures put { all_opened (map string_bytes self.new.asked.items) self.new.files.items
            ≡ all_opened (map string_bytes self.old.asked.items) files.items }
    {
        self.files = files;
    }
}

fn words_of(alloc: Global, words: &[&str]) -> Result<Vec<String>, AllocError> {
    let mut all = Vec::new(alloc);
    for word in words {
        all.push(String::from_str(alloc, word)?)?;
    }
    Ok(all)
}

// Replays the two captures, and answers the status.
fn replay_both<R: Threads + Wait + Sync>(
    rt: &R,
    alloc: Global,
    meeting: &Arc<Meeting, Global>,
) -> Result<Status, Fail> {
    let words = words_of(alloc, &REPLAY)?;
    let mut world = MeetWorld::new(alloc, Arc::try_clone(meeting)?);
    let (mut out, mut err) = (CountSink::new(), CountSink::new());
    match family_of(&words) {
        Family::Shared => Ok(run_shared(rt, alloc, &words, &mut world, &mut out, &mut err)),
        _ => Err(Fail::from("family")),
    }
}

#[test]
fn two_files_meet(rt: HostRuntime) -> Result<(), Fail> {
    let alloc = rt.alloc();
    let meeting = Arc::new(alloc, Meeting::new())?;
    let status = replay_both(&rt, alloc, &meeting)?;
    assert_eq!(rt; status, Status::OK);
    assert_eq!(rt; meeting.met(), 2);
    Ok(())
}
