ghost use Rattle.std.specs.Prelude.{◌<◌, IfOk};
ghost use Rattle.eb_io.specs.MemSource.{IsNew};

use eb_io::{MemSink, MemSource, MemWorld};
use eb_run::{Family, Status, family_of, run_plain};
use eb_samples::{CAPTURE, REPLY, SOC};
use std::alloc::{AllocError, Global};
use std::process::Abort;
use std::test::Fail;

const SOC_TABLES: &str = "table 0000000000030000 7
5344422D00070100000000000000000000000000000FFFFF0000000000001001000000010000000120240101736F632D726F6F74202020202020202020202000
";

const ONE_CYCLE: &str =
    "cycles 1\nwrites 1\nreads 1\noctets-in 24\noctets-out 16\nerrors 0\nsum 0000000000000000\n";

// Reads the first two words of SOC's root table.
const TABLE_READ: [u8; 20] = [
    0x4E, 0x6F, 0x10, 0x44, 0x88, 0x0F, 0x00, 0x02, 0x00, 0x00, 0x00, 0x00, 0x00, 0x03, 0x00, 0x00,
    0x00, 0x03, 0x00, 0x04,
];

const TABLE_WORDS: [u8; 20] = [
    0x4E, 0x6F, 0x14, 0x44, 0x0C, 0x0F, 0x02, 0x00, 0x00, 0x00, 0x00, 0x00, 0x53, 0x44, 0x42, 0x2D,
    0x00, 0x07, 0x01, 0x00,
];

const ANSWER: [&str; 4] = ["answer", "--ram", "4096", "x"];

const ON_BUS: [&str; 3] = ["answer", "soc", "x"];

fn words_of(alloc: Global, words: &[&str]) -> Result<Vec<String>, AllocError> {
    let mut all = Vec::new(alloc);
    for word in words {
        all.push(String::from_str(alloc, word)?)?;
    }
    Ok(all)
}

// A file that gives so many octets a read and fails some.
fn file_of(
    alloc: Global,
    octets: &[u8],
    most: usize,
    read_fails: &[u64],
) -> Result<MemSource, AllocError>
    requires some { 0 < most }
    ensures new { IfOk result IsNew }
{
    let fails = Vec::from_slice(alloc, read_fails)?;
    Ok(MemSource::new(Vec::from_slice(alloc, octets)?, most, fails))
}

fn world_of(alloc: Global, file: MemSource) -> Result<MemWorld, AllocError>
    requires new { IsNew file }
{
    let mut files = Vec::new(alloc);
    files.push(file)?;
    Ok(MemWorld::new(alloc, files))
}

fn world_of_two(alloc: Global, first: MemSource, second: MemSource) -> Result<MemWorld, AllocError>
    requires first { IsNew first }
    requires second { IsNew second }
{
    let mut files = Vec::new(alloc);
    files.push(first)?;
    files.push(second)?;
    Ok(MemWorld::new(alloc, files))
}

// Runs words of a command that waits for nobody.
fn run_alone(
    alloc: Global,
    words: &[String],
    world: &mut MemWorld,
    out: &mut MemSink,
    err: &mut MemSink,
) -> Status {
    match family_of(words) {
        Family::Plain => run_plain(alloc, words, world, out, err),
        Family::Client | Family::Shared | Family::Serving => Status::USAGE,
    }
}

// Runs words over a world and an output that fails the writes `write_fails`, and compares status, output and error.
fn expect<R: Abort>(
    rt: &R,
    alloc: Global,
    words: &[&str],
    mut world: MemWorld,
    write_fails: &[u64],
    wanted: (u8, &[u8], &str),
) -> Result<(), Fail> {
    let (status, output, line) = wanted;
    let words = words_of(alloc, words)?;
    let mut out = MemSink::new(alloc, 4096, 3, Vec::from_slice(alloc, write_fails)?)?;
    let mut err = MemSink::new(alloc, 4096, 3, Vec::new(alloc))?;
    let got = run_alone(alloc, &words, &mut world, &mut out, &mut err);
    assert_eq!(rt; got, Status(status));
    assert_eq!(rt; out.octets(), output);
    assert_eq!(rt; err.octets(), line.as_bytes());
    Ok(())
}

// Octets followed by so many words, of which each is so much more than the one before; the first is 0.
fn put_steps(octets: &mut Vec<u8>, front: &[u8], step: u32) -> Result<(), AllocError> {
    octets.extend_from_slice(front)?;
    for i in 0..255u32 {
        octets.extend_from_slice(&i.wrapping_mul(step).to_be_bytes())?;
    }
    Ok(())
}

#[test]
fn the_longest_record_is_answered(rt: HostRuntime) -> Result<(), Fail> {
    let alloc = rt.alloc();
    let mut capture = Vec::new(alloc);
    put_steps(
        &mut capture,
        &[0x4E, 0x6F, 0x10, 0x44, 0x88, 0x0F, 0xFF, 0xFF, 0, 0, 0, 0],
        1,
    )?;
    put_steps(&mut capture, &[0, 0, 0, 0], 4)?;
    let mut reply = Vec::new(alloc);
    put_steps(
        &mut reply,
        &[0x4E, 0x6F, 0x14, 0x44, 0x0C, 0x0F, 0xFF, 0, 0, 0, 0, 0],
        1,
    )?;
    let world = world_of(alloc, file_of(alloc, &capture, 1, &[])?)?;
    expect(&rt, alloc, &ANSWER, world, &[], (0, &reply, ""))
}

#[test]
fn faults_are_told(rt: HostRuntime) -> Result<(), Fail> {
    let alloc = rt.alloc();
    let world = world_of(alloc, file_of(alloc, &CAPTURE, 4, &[1])?)?;
    let header = &REPLY[..4];
    expect(&rt, alloc, &ANSWER, world, &[], (4, header, "read fault\n"))?;
    let world = world_of(alloc, file_of(alloc, &CAPTURE, 4, &[])?)?;
    expect(&rt, alloc, &ANSWER, world, &[0], (5, &[], "write fault\n"))?;
    let world = MemWorld::new(alloc, Vec::new(alloc));
    expect(&rt, alloc, &ANSWER, world, &[], (4, &[], "read fault\n"))
}

#[test]
fn a_capture_is_answered_on_a_described_bus(rt: HostRuntime) -> Result<(), Fail> {
    let alloc = rt.alloc();
    let soc = file_of(alloc, SOC.as_bytes(), 4096, &[])?;
    let world = world_of_two(alloc, soc, file_of(alloc, &TABLE_READ, 4096, &[])?)?;
    expect(&rt, alloc, &ON_BUS, world, &[], (0, &TABLE_WORDS, ""))
}

#[test]
fn tables_are_shown(rt: HostRuntime) -> Result<(), Fail> {
    let alloc = rt.alloc();
    let mut world = world_of(alloc, file_of(alloc, SOC.as_bytes(), 4096, &[])?)?;
    let words = words_of(alloc, &["build", "soc"])?;
    let mut out = MemSink::new(alloc, 4096, 64, Vec::new(alloc))?;
    let mut err = MemSink::new(alloc, 16, 16, Vec::new(alloc))?;
    let got = run_alone(alloc, &words, &mut world, &mut out, &mut err);
    assert_eq!(rt; got, Status::OK);
    assert!(rt; out.octets().starts_with(SOC_TABLES.as_bytes()));
    Ok(())
}

#[test]
fn a_load_is_summed_up(rt: HostRuntime) -> Result<(), Fail> {
    let alloc = rt.alloc();
    let world = MemWorld::new(alloc, Vec::new(alloc));
    let words = ["load", "0", "1"];
    expect(
        &rt,
        alloc,
        &words,
        world,
        &[],
        (0, ONE_CYCLE.as_bytes(), ""),
    )
}
