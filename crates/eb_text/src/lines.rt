// The lines that tell how a command ended.
ghost use Rattle.std.specs.Prelude.{◌≡◌, ◌≤◌, ◌++◌, codes, length};
ghost use Rattle.eb_io.specs.Text.{line};
ghost use Rattle.eb_io.specs.Writing.{Wrote};
ghost use Rattle.eb_text.specs.Lines.{line_of, malformed_line, refusal, refusal_line, rule_text, script_line, truncated_line};

use crate::fault::Fault;
use eb_codec::Why;
use eb_io::{Line, Sink, WriteFault, put_all, put_each};
use soc_desc::{DescFault, Path};

/// The text of a rule of a stream.
pub fn rule_text(rule: Why) -> &'static [u8]
    ensures text { result.now ≡ rule_text rule }
    ensures short { length result.now ≤ 27 }
{
    match rule {
        Why::Magic => b"wrong magic",
        Why::Version => b"wrong version",
        Why::Response => b"probe response",
        Why::Reserved => b"reserved bit",
        Why::Width => b"width",
        Why::Flag => b"reserved flag",
        Why::Beyond => b"byte enable beyond the port",
        Why::NoEnable => b"no byte enabled",
        Why::NoReply => b"read without reply",
    }
}

// Where a stream breaks a rule, and which.
fn malformed_line(place: u64, rule: Why) -> Line<64>
    ensures value { result ≡ malformed_line place rule }
{
    let mut line = Line::of(b"malformed at ");
    line.put_decimal(place);
    line.put(b": ");
    line.put(rule_text(rule));
    line.put(b"\n");
    line
}

// How much of an item the input had.
fn truncated_line(octets: u64) -> Line<64>
    ensures value { result ≡ truncated_line octets }
{
    let mut line = Line::of(b"truncated after ");
    line.put_decimal(octets);
    line.put(b" octets of an item");
    line.put(b"\n");
    line
}

// Which line of a script is refused.
fn script_line(number: u32) -> Line<64>
    ensures value { result ≡ script_line number }
{
    let mut line = Line::of(b"script refused at line ");
    line.put_decimal(u64::from(number));
    line.put(b"\n");
    line
}

// Writes a text and the end of its line.
fn put_line<K: Sink>(text: &[u8], sink: &mut K) -> Result<(), WriteFault>
    ensures wrote { Wrote K.writing K.beside_writes sink.old sink.new (line text.now) result }
{
    put_each(sink, &[text, b"\n"])
}

// Writes why a description is refused, and where.
fn write_refusal<K: Sink>(reason: &[u8], path: &Path, sink: &mut K) -> Result<(), WriteFault>
    ensures wrote { Wrote K.writing K.beside_writes sink.old sink.new (refusal reason.now path.now) result }
{
    // The space stands also before an empty path.
    put_each(
        sink,
        &[
            b"description refused: ",
            reason,
            b" ",
            path.as_slice(),
            b"\n",
        ],
    )
}

// Writes that two places meet.
fn write_overlap<K: Sink>(path: &Path, other: &Path, sink: &mut K) -> Result<(), WriteFault>
    ensures wrote { Wrote K.writing K.beside_writes sink.old sink.new
        (refusal (codes "overlap " ++ path.now) other.now) result }
{
    put_each(
        sink,
        &[
            b"description refused: overlap ",
            path.as_slice(),
            b" ",
            other.as_slice(),
            b"\n",
        ],
    )
}

// Writes the line of a refused description.
fn write_refused<K: Sink>(fault: &DescFault, sink: &mut K) -> Result<(), WriteFault>
    ensures wrote { Wrote K.writing K.beside_writes sink.old sink.new (refusal_line fault.now) result }
{
    match fault {
        DescFault::NotJson => put_line(b"description refused: not json", sink),
        DescFault::Missing(path) => write_refusal(b"missing", path, sink),
        DescFault::Unknown(path) => write_refusal(b"unknown", path, sink),
        DescFault::Kind(path) => write_refusal(b"kind", path, sink),
        DescFault::Range(path) => write_refusal(b"range", path, sink),
        DescFault::Overlap(path, other) => write_overlap(path, other, sink),
        DescFault::Outside(path) => write_refusal(b"outside", path, sink),
        DescFault::TooMany(path) => write_refusal(b"too many", path, sink),
        DescFault::TooDeep(path) => write_refusal(b"too deep", path, sink),
        DescFault::Name(path) => write_refusal(b"name", path, sink),
        DescFault::NoMemory => put_line(b"no memory", sink),
    }
}

/// Writes the line on standard error that tells how a command ended. Where a write fails, a front of the line went out.
/// It takes no memory.
pub fn write_line<K: Sink>(fault: &Fault, sink: &mut K) -> Result<(), WriteFault>
    ensures wrote { Wrote K.writing K.beside_writes sink.old sink.new (line_of fault.now) result }
{
    match fault {
        Fault::Usage => put_line(b"usage", sink),
        Fault::Description(refused) => write_refused(refused, sink),
        Fault::ReadFault => put_line(b"read fault", sink),
        Fault::WriteFault => put_line(b"write fault", sink),
        Fault::Malformed(place, rule) => put_all(sink, malformed_line(*place, *rule).as_slice()),
        Fault::Truncated(octets) => put_all(sink, truncated_line(*octets).as_slice()),
        Fault::TooLong => put_line(b"too long", sink),
        Fault::NoMemory => put_line(b"no memory", sink),
        Fault::Script(number) => put_all(sink, script_line(*number).as_slice()),
    }
}
