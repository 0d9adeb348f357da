//! The replies to items.
ghost use Rattle.std.specs.Prelude.{◌≡◌, ◌≢◌, ◌<◌, ◌≤◌, ◌+◌, ◌*◌, ◌^◌, ◌++◌, length, vec_len, vec_capacity};
ghost use Rattle.std.specs.List.{flat_map};
ghost use Rattle.eb_base.specs.declared.width.Width.TheVariants.{W32};
ghost use Rattle.eb_base.specs.Width.{octets};
ghost use Rattle.eb_base.specs.Lanes.{word_of};
ghost use Rattle.eb_codec.specs.Form.{FitsProbe, zeroed, field};
ghost use Rattle.eb_codec.specs.Sizes.{field_octets};
ghost use Rattle.eb_session.specs.Operations.{bus_writes, bus_reads, upto};
ghost use Rattle.eb_session.specs.Replies.{answer_word, read_word, record_reply, probe_reply, header_reply, reply_flags};

use crate::configuration::config;
use crate::operations::on_bus;
use crate::slave::Slave;
use eb_base::{Width, word};
use eb_codec::encoding::{put, put_field, put_zeros};
use eb_codec::flags::{BCA, CYC, MAGIC, NR, PR, RCA, RFF, VERSION, WCA, WFF};
use eb_codec::sizes::{trailing, unit_len};
use eb_codec::{Header, Probe, RecordView};
use wb_signals::{Answer, Master};

/// The flags of the reply to a record with these.
#[inline(always)]
pub fn flags_of(flags: u8) -> u8
    ensures value { result ≡ reply_flags flags }
{
    let base = if flags & BCA != 0 { WCA } else { 0 };
    let fixed = if flags & RFF != 0 { WFF } else { 0 };
    let ends = if flags & CYC != 0 { CYC } else { 0 };
    base + fixed + ends
}

// All lanes of a word of 32 bits, on a bus of 32 bits.
#[inline(always)]
fn whole_word(adr: u64, dat: u64) -> u64
    ensures value { result ≡ word_of W32 W32 adr dat 15 }
{
    dat % 0x1_0000_0000
}

// What a port gets of a word of the bus.
#[inline(always)]
fn word_of_bus(port: Width, bus: Width, adr: u64, dat: u64, sel: u8) -> u64
    requires narrow { octets port ≤ octets bus }
    requires some_lane { 1 ≤ sel }
    requires lanes { sel < 2 ^ octets port }
    ensures value { result ≡ word_of port bus adr dat sel }
{
    match (port, bus, sel) {
        (Width::W32, Width::W32, 15) => whole_word(adr, dat),
        _ => word(port, bus, adr, dat, sel),
    }
}

/// The word of an answer.
#[inline(always)]
pub fn answered(port: Width, bus: Width, adr: u64, sel: u8, answer: Answer) -> u64
    requires narrow { octets port ≤ octets bus }
    requires some_lane { sel ≢ 0 }
    requires lanes { sel < 2 ^ octets port }
    ensures value { result ≡ answer_word port bus adr sel answer }
    ensures most { result < 256 ^ octets port }
{
    match answer {
        Answer::Ack(dat) => word_of_bus(port, bus, adr, dat, sel),
        Answer::Err | Answer::Rty => 0,
    }
}

// Word i of those that the record read, `errors` being the register after it.
#[inline(always)]
fn read<M: Master>(slave: Slave, view: &RecordView<'_>, master: &M, errors: u64, i: usize) -> u64
    requires narrow { octets view.now.header.port ≤ octets slave.bus }
    requires inside { i < view.now.item.head.reads }
    requires answers { bus_writes view.now.item + bus_reads view.now.item ≤ length (M.answered master.now) }
    ensures value { result ≡ read_word slave view.now.header view.now.item (M.answered master.now) errors i }
    ensures most { result < 256 ^ octets view.now.header.port }
{
    let (port, head, adr) = (view.header().port, view.head(), view.address(i));
    if head.flags & RCA != 0 {
        config(port, slave.root, errors, adr, head.enable)
    } else {
        let first = on_bus(head.flags, WCA, head.writes);
        answered(port, slave.bus, adr, head.enable, master.answer(first + i))
    }
}

// Appends the words that the record read.
#[tactic(auto, using(crate::proofs::ListLemmas::one_more_word))]
#[inline(always)]
fn put_words<M: Master>(
    slave: Slave,
    view: &RecordView<'_>,
    master: &M,
    errors: u64,
    reply: &mut Vec<u8>,
)
    requires narrow { octets view.now.header.port ≤ octets slave.bus }
    requires answers { bus_writes view.now.item + bus_reads view.now.item ≤ length (M.answered master.now) }
    requires room { vec_len reply.old + field_octets view.now.header * view.now.item.head.reads
        ≤ vec_capacity reply.old }
    ensures items { reply.new.items ≡ reply.old.items ++ zeroed (flat_map (field view.now.header view.now.header.port)
        (upto view.now.item.head.reads
        (read_word slave view.now.header view.now.item (M.answered master.now) errors))) }
    ensures len { vec_len reply.new ≡ vec_len reply.old + field_octets view.now.header * view.now.item.head.reads }
    ensures capacity { vec_capacity reply.old ≤ vec_capacity reply.new }
{
    let header = view.header();
    for i in 0..usize::from(view.head().reads) {
        let word = read(slave, view, master, errors, i);
        put_field(reply, header, header.port, word);
    }
}

// Appends the reply to a record that ran on the master, `errors` being the register after it.
#[inline(always)]
fn put_answers<M: Master>(
    slave: Slave,
    view: &RecordView<'_>,
    master: &M,
    errors: u64,
    reply: &mut Vec<u8>,
)
    requires narrow { octets view.now.header.port ≤ octets slave.bus }
    requires answers { bus_writes view.now.item + bus_reads view.now.item ≤ length (M.answered master.now) }
    requires room { vec_len reply.old + 2056 ≤ vec_capacity reply.old }
    ensures items { reply.new.items
        ≡ reply.old.items ++ record_reply slave view.now.header view.now.item (M.answered master.now) errors }
    ensures len { vec_len reply.new ≤ vec_len reply.old + 2056 }
    ensures room { vec_capacity reply.old ≤ vec_capacity reply.new }
{
    let (header, head) = (view.header(), view.head());
    if head.reads == 0 {
        return;
    }
    put(reply, &[flags_of(head.flags), head.enable, head.reads, 0]);
    put_zeros(reply, unit_len(header) - 4);
    put_field(reply, header, header.address, view.return_base());
    put_words(slave, view, master, errors, reply);
    put_zeros(reply, trailing(header, head.reads, 0));
}

// The same, to a record that is not of 32 bits.
#[inline(never)]
fn put_others<M: Master>(
    slave: Slave,
    view: &RecordView<'_>,
    master: &M,
    errors: u64,
    reply: &mut Vec<u8>,
)
    requires narrow { octets view.now.header.port ≤ octets slave.bus }
    requires answers { bus_writes view.now.item + bus_reads view.now.item ≤ length (M.answered master.now) }
    requires room { vec_len reply.old + 2056 ≤ vec_capacity reply.old }
    ensures items { reply.new.items
        ≡ reply.old.items ++ record_reply slave view.now.header view.now.item (M.answered master.now) errors }
    ensures len { vec_len reply.new ≤ vec_len reply.old + 2056 }
    ensures room { vec_capacity reply.old ≤ vec_capacity reply.new }
{
    put_answers(slave, view, master, errors, reply);
}

/// Appends the reply to a record that ran on the master, `errors` being the register after it.
#[inline(always)]
pub fn put_reply<M: Master>(
    slave: Slave,
    view: &RecordView<'_>,
    master: &M,
    errors: u64,
    reply: &mut Vec<u8>,
)
    requires narrow { octets view.now.header.port ≤ octets slave.bus }
    requires answers { bus_writes view.now.item + bus_reads view.now.item ≤ length (M.answered master.now) }
    requires room { vec_len reply.old + 2056 ≤ vec_capacity reply.old }
    ensures items { reply.new.items
        ≡ reply.old.items ++ record_reply slave view.now.header view.now.item (M.answered master.now) errors }
    ensures len { vec_len reply.new ≤ vec_len reply.old + 2056 }
    ensures room { vec_capacity reply.old ≤ vec_capacity reply.new }
{
    // The common case, in code for its widths alone.
    match (slave.bus, view.words()) {
        (Width::W32, Some(words)) => {
            let slave = Slave {
                bus: Width::W32,
                root: slave.root,
            };
            put_answers(slave, &words, master, errors, reply);
        }
        _ => put_others(slave, view, master, errors, reply),
    }
}

/// Appends the reply to a probe.
#[tactic(auto, unfolding(eb_base::specs::Field::octets_of))]
pub fn put_probe(slave: Slave, probe: Probe, reply: &mut Vec<u8>)
    requires fits { FitsProbe probe }
    requires room { vec_len reply.old + 8 ≤ vec_capacity reply.old }
    ensures items { reply.new.items ≡ reply.old.items ++ probe_reply slave probe }
    ensures len { vec_len reply.new ≡ vec_len reply.old + 8 }
    ensures room { vec_capacity reply.old ≤ vec_capacity reply.new }
{
    let sets = 0xf0 + (2 * slave.bus.bit() - 1);
    put(reply, &[MAGIC[0], MAGIC[1], VERSION + NR + PR, sets]);
    put(reply, &probe.id.to_be_bytes());
}

/// Appends the reply to the header.
pub fn put_header(header: Header, reply: &mut Vec<u8>)
    requires room { vec_len reply.old + 8 ≤ vec_capacity reply.old }
    ensures items { reply.new.items ≡ reply.old.items ++ header_reply header }
    ensures len { vec_len reply.new ≤ vec_len reply.old + 8 }
    ensures room { vec_capacity reply.old ≤ vec_capacity reply.new }
{
    if header.no_reply {
        return;
    }
    let widths = 16 * header.address.bit() + header.port.bit();
    put(reply, &[MAGIC[0], MAGIC[1], VERSION + NR, widths]);
    put_zeros(reply, unit_len(header) - 4);
}
