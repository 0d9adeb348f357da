//! A short record on a bus of 32 bits: its operations, and the reply to it.
ghost use Rattle.std.specs.Prelude.{◌≡◌, ◌≤◌, ◌+◌, ◌++◌, ◌∷◌, [], vec_len, vec_capacity};
ghost use Rattle.eb_base.specs.declared.width.Width.TheVariants.{W32};
ghost use Rattle.eb_codec.specs.Short.{IsShortFlags, short_header, short_record};
ghost use Rattle.wb_signals.specs.Cycles.{FitsBus, AllFitBus};
ghost use Rattle.eb_session.specs.Operations.{write_at, read_at, ends_cycle};
ghost use Rattle.eb_session.specs.Short.{short_reply};

use crate::operations::{access, is_last};
use crate::replying::{answered, flags_of};
use eb_base::Width;
use eb_codec::ShortRecord;
use eb_codec::encoding::put;
use wb_signals::{Answer, Op};

// Its write.
#[inline(always)]
fn short_write(short: ShortRecord) -> Op
    requires flags { IsShortFlags short.flags }
    ensures value { result ≡ write_at W32 short_header (short_record short) 0 }
    ensures fits { FitsBus W32 result }
{
    let (adr, dat) = (u64::from(short.write_base), u64::from(short.value));
    access(Width::W32, Width::W32, true, adr, dat, 15)
}

// Its read.
#[inline(always)]
fn short_read(short: ShortRecord) -> Op
    ensures value { result ≡ read_at W32 short_header (short_record short) 0 }
    ensures fits { FitsBus W32 result }
{
    let adr = u64::from(short.address);
    access(Width::W32, Width::W32, false, adr, 0, 15)
}

/// Its operations: the write, then the read.
#[inline(always)]
pub fn short_ops(short: ShortRecord) -> [Op; 2]
    requires flags { IsShortFlags short.flags }
    ensures items { result ≡ write_at W32 short_header (short_record short) 0
        ∷ read_at W32 short_header (short_record short) 0 ∷ [] }
    ensures fit { AllFitBus W32 result }
{
    [short_write(short), short_read(short)]
}

/// Whether a cycle ends after it.
#[inline(always)]
pub fn short_ends(short: ShortRecord) -> bool
    ensures value { result ≡ ends_cycle (short_record short) }
{
    is_last(short.flags)
}

/// Appends the reply to it, where its read was given this answer.
#[tactic(auto, unfolding(eb_base::specs::Field::octets_of))]
#[inline(always)]
pub fn put_short(short: ShortRecord, read: Answer, reply: &mut Vec<u8>)
    requires room { vec_len reply.old + 12 ≤ vec_capacity reply.old }
    ensures items { reply.new.items ≡ reply.old.items ++ short_reply short read }
    ensures len { vec_len reply.new ≡ vec_len reply.old + 12 }
    ensures capacity { vec_capacity reply.old ≤ vec_capacity reply.new }
{
    let adr = u64::from(short.address);
    let word = answered(Width::W32, Width::W32, adr, 15, read) as u32;
    put(reply, &[flags_of(short.flags), 15, 1, 0]);
    put(reply, &short.return_base.to_be_bytes());
    put(reply, &word.to_be_bytes());
}
