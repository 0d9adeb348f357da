// What is counted of a run, and its text.
ghost use Rattle.std.specs.Prelude.{◌≡◌, ◌≤◌, ◌+◌, ◌++◌, length, decimal};
ghost use Rattle.eb_io.specs.Text.{line};
ghost use Rattle.eb_io.specs.Writing.{Wrote};
ghost use Rattle.eb_load.specs.Summary.{summary, summary_text};

use crate::counted::Counted;
use eb_io::{Line, Sink, WriteFault, put_all};
use soc_trail::Recorder;

/// What is counted of a run: its cycles, and of their operations the writes, the reads and those answered ERR or RTY;
/// the octets that came in and went out; and the sum of the words read, modulo 2^64.
///
/// A count stands still at `2^64 - 1`.
#[derive(Clone, Copy, Debug, PartialEq, Eq)]
pub struct Summary {
    pub cycles: u64,
    pub writes: u64,
    pub reads: u64,
    pub octets_in: u64,
    pub octets_out: u64,
    pub errors: u64,
    pub sum: u64,
}

// The text of a summary: seven lines, of which the longest has 32 octets.
type Text = Line<200>;

// Adds a line with a name and a count.
fn put_count(out: &mut Text, name: &[u8], count: u64)
    requires room { length out.old + length name.now + 21 ≤ 200 }
    ensures added { out.new ≡ out.old ++ line (name.now ++ decimal count) }
    ensures len { length out.new ≤ length out.old + length name.now + 21 }
{
    out.put(name);
    out.put_decimal(count);
    out.put(b"\n");
}

fn text(summary: &Summary) -> Text
    ensures value { result ≡ summary_text summary.now }
{
    let mut out = Text::of(b"");
    put_count(&mut out, b"cycles ", summary.cycles);
    put_count(&mut out, b"writes ", summary.writes);
    put_count(&mut out, b"reads ", summary.reads);
    put_count(&mut out, b"octets-in ", summary.octets_in);
    put_count(&mut out, b"octets-out ", summary.octets_out);
    put_count(&mut out, b"errors ", summary.errors);
    out.put(b"sum ");
    out.put_word(summary.sum);
    out.put(b"\n");
    out
}

impl Summary {
    /// The summary of a run whose cycles were counted, which took and gave so many octets.
    pub fn of<R: Recorder>(counted: &Counted<R>, octets_in: u64, octets_out: u64) -> Summary
        ensures value { result ≡ summary (R.made counted.now.recorder) octets_in octets_out }
    {
        let ended = counted.ended();
        Summary {
            cycles: counted.cycles(),
            writes: ended.writes,
            reads: ended.reads,
            octets_in,
            octets_out,
            errors: ended.errors,
            sum: ended.sum,
        }
    }

    /// Writes the summary as text, a line a number: `cycles`, `writes`, `reads`, `octets-in`, `octets-out` and `errors`
    /// in decimal, and `sum` in 16 hexadecimal digits. Where a write fails, a front of the text went out. It takes no
    /// memory.
    pub fn write<K: Sink>(&self, sink: &mut K) -> Result<(), WriteFault>
        ensures wrote { Wrote K.writing K.beside_writes sink.old sink.new (summary_text self.now) result }
    {
        put_all(sink, text(self).as_slice())
    }
}
