//! One half of an operation of 64 data bits, and its answer on the way back.
ghost use Rattle.std.specs.Prelude.{◌≡◌, ◌≤◌, ◌<◌, ◌%◌, length};
ghost use Rattle.std.specs.Option.{ForSome};
ghost use Rattle.circular_buffer.specs.Buffer.{buffer};
ghost use Rattle.wb_signals.specs.Wiring.{lifted};
ghost use Rattle.wb_signals.specs.Bus.{Upper, Lower, half_of, half};
ghost use Rattle.wb_signals.specs.Narrow.{FitsHalf, one_half, answer_back, uppers_left, uppers_with, uppers_after};

use circular_buffer::HeapCircularBuffer;
use wb_signals::{Answer, Op};

/// An operation of 64 data bits in its half, on a bus of 32; None where its lanes are of both halves.
pub fn one_half(op: &Op) -> Option<Op>
    requires word { op.now.adr % 8 ≡ 0 }
    requires lanes { op.now.sel < 256 }
    ensures half { result ≡ one_half (half_of op.now.sel) op.now }
{
    if op.sel % 16 == 0 {
        Some(upper(op))
    } else if op.sel < 16 {
        Some(lower(op))
    } else {
        None
    }
}

/// The operation in the upper half, the lanes of 0xF0, which has the lower address.
fn upper(op: &Op) -> Op
    requires upper { op.now.sel % 16 ≡ 0 }
    requires lanes { op.now.sel < 256 }
    ensures half { result ≡ half Upper op.now }
{
    Op {
        write: op.write,
        adr: op.adr,
        dat: op.dat >> 32,
        sel: op.sel / 16,
    }
}

/// The operation in the lower half, the lanes of 0x0F.
fn lower(op: &Op) -> Op
    requires word { op.now.adr % 8 ≡ 0 }
    ensures half { result ≡ half Lower op.now }
{
    Op {
        write: op.write,
        adr: op.adr + 4,
        dat: op.dat,
        sel: op.sel,
    }
}

/// The answer as it goes back to the half that its operation came from. The half of the operation that passed is kept
/// for its own answer.
pub fn go_back(
    uppers: &mut HeapCircularBuffer<bool>,
    answer: Option<Answer>,
    op: &Option<Op>,
) -> Option<Answer>
    requires short { ForSome answer FitsHalf }
    requires room { length (uppers_after uppers.old.items answer op.now) ≤ uppers.old.capacity }
    ensures uppers { uppers.new ≡ buffer (uppers_after uppers.old.items answer op.now) uppers.old.capacity }
    ensures answer { result ≡ answer_back uppers.old.items answer }
{
    let back = take_back(uppers, answer);
    keep_half(uppers, op);
    back
}

/// The answer as it goes back, of which the half is kept no longer.
fn take_back(uppers: &mut HeapCircularBuffer<bool>, answer: Option<Answer>) -> Option<Answer>
    requires short { ForSome answer FitsHalf }
    ensures uppers { uppers.new ≡ buffer (uppers_left uppers.old.items answer) uppers.old.capacity }
    ensures answer { result ≡ answer_back uppers.old.items answer }
{
    match answer {
        None => None,
        Some(answer) => {
            let upper = uppers.pop_front().unwrap_or(false);
            Some(lifted(upper, answer))
        }
    }
}

/// An answer whose word goes to the upper half or the lower one.
fn lifted(upper: bool, answer: Answer) -> Answer
    requires short { FitsHalf answer }
    ensures answer { result ≡ lifted upper answer }
{
    match (upper, answer) {
        (true, Answer::Ack(word)) => Answer::Ack(word << 32),
        _ => answer,
    }
}

/// Keeps the half that the answer of this operation goes back to.
fn keep_half(uppers: &mut HeapCircularBuffer<bool>, op: &Option<Op>)
    requires room { length (uppers_with uppers.old.items op.now) ≤ uppers.old.capacity }
    ensures uppers { uppers.new ≡ buffer (uppers_with uppers.old.items op.now) uppers.old.capacity }
{
    if let Some(op) = op {
        uppers.push_back(op.sel % 16 == 0);
    }
}
