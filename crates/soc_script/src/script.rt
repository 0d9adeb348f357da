// A script, and its text.
ghost use Rattle.std.specs.Prelude.{◌≡◌, ◌≤◌, IfErr, IfOk};
ghost use Rattle.eb_base.specs.Width.{octets};
ghost use Rattle.soc_script.specs.Script.{AreLines, IsScript};
ghost use Rattle.soc_script.specs.Reading.{IsFault, IsLineFault};

use crate::fault::ScriptFault;
use crate::line::{ScriptLine, line_of};
use crate::pieces::Pieces;
use eb_base::Width;
use std::alloc::Global;
use std::marker::Model;

// The most octets of a text, the most lines, and the most operations of all lines.
const MOST_OCTETS: usize = 1_048_576;

const MOST_LINES: u32 = 256;

const MOST_OPS: usize = 4_096;

/// The lines of a script, in order.
#[derive(Debug, Drop)]
pub struct Script {
    lines: Vec<ScriptLine>,
}

impl Model for Script {
    ghost use Rattle.std.specs.Prelude.{List};
    ghost use Rattle.soc_script.specs.Script.{ScriptLine};

    ghost Value = { List ScriptLine };

    ghost view = { λ a. a.lines.items };
}

impl Script {
    /// All lines.
    pub fn lines(&self) -> &[ScriptLine]
        ensures lines { result.now ≡ self.now }
    {
        self.lines.as_slice()
    }
}

/// Reads the text of a script, for a bus of this data width with so many masters.
///
/// The fault has the first line that breaks a rule or passes a limit, or says that there was no memory.
pub fn read_script(
    alloc: Global,
    text: &[u8],
    masters: u8,
    bus: Width,
) -> Result<Script, ScriptFault>
    requires wide { 4 ≤ octets bus }
    ensures script { IfOk result (λ script. IsScript bus masters text.now script) }
    ensures fault { IfErr result (λ fault. IsFault bus masters text.now fault) }
{
    if text.len() > MOST_OCTETS {
        return Err(ScriptFault::Refused(0));
    }
    let lines = read_lines(alloc, Pieces::lines(text), masters, bus)?;
    Ok(Script { lines })
}

fn read_lines(
    alloc: Global,
    mut texts: Pieces<'_>,
    masters: u8,
    bus: Width,
) -> Result<Vec<ScriptLine>, ScriptFault>
    requires wide { 4 ≤ octets bus }
    ensures lines { IfOk result (λ lines. AreLines bus masters texts.entry lines.items) }
    ensures fault { IfErr result (λ fault. IsLineFault bus masters texts.entry fault) }
{
    let mut lines = Vec::new(alloc);
    let mut number: u32 = 0;
    let mut ops = 0;
    'reading: while let Some(text) = texts.next() {
        number += 1;
        let refused = ScriptFault::Refused(number);
        if number > MOST_LINES {
            return Err(refused);
        }
        let Some(line) = line_of(alloc, text, masters, bus)? else {
            return Err(refused);
        };
        ops += line.ops.len();
        if ops > MOST_OPS {
            return Err(refused);
        }
        lines.push(line)?;
    }
    Ok(lines)
}
