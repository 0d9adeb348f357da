// A line of a script, and its text.
ghost use Rattle.std.specs.Prelude.{◌≡◌, ◌≤◌, IfOk, option_map};
ghost use Rattle.eb_base.specs.Width.{octets};
ghost use Rattle.soc_script.specs.Script.{clock_of, head_of, line_of, mark_of, master_of, ops_of};

use crate::digits::decimal_of;
use crate::operation::op_of;
use crate::pieces::Pieces;
use eb_base::{NoMemory, Width};
use std::alloc::Global;
use std::marker::Model;
use wb_signals::Op;

// The most operations of a line.
const MOST_OPS: usize = 255;

/// A line of a script: a record of a master, which may run from a clock on.
#[derive(Debug, Drop)]
pub struct ScriptLine {
    /// The number of the master.
    pub master: u8,
    /// The clock from which on it may run, at most 10,000.
    pub clock: u16,
    /// Whether it ends its master's cycle.
    pub last: bool,
    /// Its operations, 1 to 255.
    pub ops: Vec<Op>,
}

impl Model for ScriptLine {
    ghost use Rattle.soc_script.specs.Script.{ScriptLine};

    ghost Value = { ScriptLine };

    ghost view = { λ a. record { master = a.master; clock = a.clock; last = a.last; ops = a.ops.items } };
}

// What stands in a line before its operations.
#[derive(Drop)]
struct Head {
    master: u8,
    clock: u16,
    last: bool,
}

impl Model for Head {
    ghost use Rattle.soc_script.specs.Script.{LineHead};

    ghost Value = { LineHead };

    ghost view = { λ a. record { master = a.master; clock = a.clock; last = a.last } };
}

fn master_of(masters: u8, word: &[u8]) -> Option<u8>
    ensures value { result ≡ master_of masters word.now }
{
    let master = decimal_of(word)?;
    if master < u64::from(masters) {
        Some(master as u8)
    } else {
        None
    }
}

fn clock_of(word: &[u8]) -> Option<u16>
    ensures value { result ≡ clock_of word.now }
{
    let clock = decimal_of(word)?;
    if clock <= 10_000 {
        Some(clock as u16)
    } else {
        None
    }
}

fn mark_of(word: &[u8]) -> Option<bool>
    ensures value { result ≡ mark_of word.now }
{
    if word == b"end".as_slice() {
        Some(true)
    } else if word == b"hold".as_slice() {
        Some(false)
    } else {
        None
    }
}

fn head_of(masters: u8, master: &[u8], clock: &[u8], mark: &[u8]) -> Option<Head>
    ensures value { result ≡ head_of masters master.now clock.now mark.now }
{
    let master = master_of(masters, master)?;
    let clock = clock_of(clock)?;
    let last = mark_of(mark)?;
    Some(Head {
        master,
        clock,
        last,
    })
}

// The operations of these words, 1 to 255.
fn ops_of(alloc: Global, mut words: Pieces<'_>, bus: Width) -> Result<Option<Vec<Op>>, NoMemory>
    requires wide { 4 ≤ octets bus }
    ensures ops { IfOk result (λ ops. option_map (λ v. v.items) ops ≡ ops_of bus words.entry) }
{
    let mut ops = Vec::new(alloc);
    'reading: while let Some(word) = words.next() {
        if ops.len() == MOST_OPS {
            return Ok(None);
        }
        let Some(op) = op_of(bus, word) else {
            return Ok(None);
        };
        ops.push(op)?;
    }
    if ops.is_empty() {
        return Ok(None);
    }
    Ok(Some(ops))
}

/// The line that a text without its newline spells, for a bus with so many masters. None where it spells none.
pub fn line_of(
    alloc: Global,
    text: &[u8],
    masters: u8,
    bus: Width,
) -> Result<Option<ScriptLine>, NoMemory>
    requires wide { 4 ≤ octets bus }
    ensures line { IfOk result (λ line. line ≡ line_of bus masters text.now) }
{
    let mut words = Pieces::words(text);
    let (Some(master), Some(clock), Some(mark)) = (words.next(), words.next(), words.next()) else {
        return Ok(None);
    };
    let Some(head) = head_of(masters, master, clock, mark) else {
        return Ok(None);
    };
    let Some(ops) = ops_of(alloc, words, bus)? else {
        return Ok(None);
    };
    Ok(Some(ScriptLine {
        master: head.master,
        clock: head.clock,
        last: head.last,
        ops,
    }))
}
