//! How the ending of a stream is told in the texts of several streams.
ghost use Rattle.std.specs.Prelude.{◌≡◌, ◌≤◌, ◌++◌, codes, length, decimal};
ghost use Rattle.eb_replay.specs.Ends.{end_text};
ghost use Rattle.eb_text.specs.Lines.{rule_text};

use eb_codec::Why;
use eb_io::Line;
use eb_server::Ending;
use eb_text::rule_text;

fn truncated_text(octets: u64) -> Line<64>
    ensures value { result ≡ codes "truncated " ++ decimal octets }
    ensures short { length result ≤ 58 }
{
    let mut text = Line::of(b"truncated ");
    text.put_decimal(octets);
    text
}

fn malformed_text(place: u64, rule: Why) -> Line<64>
    ensures value { result ≡ codes "malformed " ++ decimal place ++ codes " " ++ rule_text rule }
    ensures short { length result ≤ 58 }
{
    let mut text = Line::of(b"malformed ");
    text.put_decimal(place);
    text.put(b" ");
    text.put(rule_text(rule));
    text
}

/// How an ending is told, in at most 58 octets: `clean`, `malformed PLACE WHY`, `truncated N`, `read fault`, `write
/// fault`, `too long` or `memory`. PLACE and N are decimal: the place of the first bad octet of the stream, the first
/// being 0, and how many octets there were of an item that was cut.
pub fn end_text(ending: Ending) -> Line<64>
    ensures value { result ≡ end_text ending }
    ensures short { length result ≤ 58 }
{
    match ending {
        Ending::Clean => Line::of(b"clean"),
        Ending::Truncated(octets) => truncated_text(octets),
        Ending::Malformed(place, rule) => malformed_text(place, rule),
        Ending::ReadFault => Line::of(b"read fault"),
        Ending::WriteFault => Line::of(b"write fault"),
        Ending::TooLong => Line::of(b"too long"),
        Ending::NoMemory => Line::of(b"memory"),
    }
}
