//! The operations of a record.
ghost use Rattle.std.specs.Prelude.{◌≡◌, ◌≢◌, ◌<◌, ◌≤◌, ◌+◌, ◌*◌, ◌%◌, ◌^◌, ◌++◌, ◌∷◌, [], false, if◌then◌else◌, vec_len, vec_capacity};
ghost use Rattle.eb_base.specs.Width.{octets};
ghost use Rattle.eb_base.specs.declared.width.Width.TheVariants.{W32};
ghost use Rattle.eb_base.specs.Lanes.{placed_adr, placed_dat, placed_sel};
ghost use Rattle.eb_codec.specs.declared.flags.TheConstants.{CYC, WFF};
ghost use Rattle.eb_codec.specs.Rules.{has};
ghost use Rattle.wb_signals.specs.Request.{placed};
ghost use Rattle.wb_signals.specs.Cycles.{FitsBus, AllFitBus};
ghost use Rattle.eb_session.specs.Operations.{write_at, read_at, record_ops, upto};

use eb_base::{Lanes, Width, place};
use eb_codec::flags::{CYC, RCA, WCA, WFF};
use eb_codec::{Header, RecordView};
use wb_signals::Op;

// A number below that many octets.
#[inline(always)]
fn narrowed(width: Width, n: u64) -> u64
    ensures value { result ≡ n % 256 ^ octets width }
{
    match width {
        Width::W8 => n % 0x100,
        Width::W16 => n % 0x1_0000,
        Width::W32 => n % 0x1_0000_0000,
        Width::W64 => n,
    }
}

// Where an access of all lanes of a port of 32 bits goes on a bus of 32 bits.
#[inline(always)]
fn whole_word(adr: u64, dat: u64) -> Lanes
    requires data_fits { dat < 256 ^ 4 }
    ensures adr { result.adr ≡ placed_adr W32 W32 adr }
    ensures dat { result.dat ≡ placed_dat W32 W32 adr dat 15 }
    ensures sel { result.sel ≡ placed_sel W32 W32 adr 15 }
{
    Lanes {
        adr: adr - adr % 4,
        dat,
        sel: 15,
    }
}

// Where an access of a port goes on the bus.
#[inline(always)]
fn lanes_of(port: Width, bus: Width, adr: u64, dat: u64, sel: u8) -> Lanes
    requires narrow { octets port ≤ octets bus }
    requires some_lane { 1 ≤ sel }
    requires lanes { sel < 2 ^ octets port }
    requires data_fits { dat < 256 ^ octets port }
    ensures adr { result.adr ≡ placed_adr port bus adr }
    ensures dat { result.dat ≡ placed_dat port bus adr dat sel }
    ensures sel { result.sel ≡ placed_sel port bus adr sel }
{
    match (port, bus, sel) {
        (Width::W32, Width::W32, 15) => whole_word(adr, dat),
        _ => place(port, bus, adr, dat, sel),
    }
}

/// An access of a port as an operation on the bus.
#[inline(always)]
#[tactic(auto, unfolding(wb_signals::specs::Request::placed))]
pub fn access(port: Width, bus: Width, write: bool, adr: u64, dat: u64, sel: u8) -> Op
    requires narrow { octets port ≤ octets bus }
    requires some_lane { sel ≢ 0 }
    requires lanes { sel < 2 ^ octets port }
    requires data_fits { dat < 256 ^ octets port }
    requires no_data { write ≡ false → dat ≡ 0 }
    ensures value { result ≡ placed port bus write adr dat sel }
    ensures fits { FitsBus bus result }
{
    let lanes = lanes_of(port, bus, adr, dat, sel);
    Op {
        write,
        adr: lanes.adr,
        dat: lanes.dat,
        sel: lanes.sel,
    }
}

// The address of a write.
#[inline(always)]
fn write_address(header: Header, flags: u8, base: u64, i: usize) -> u64
    requires few { i < 256 }
    ensures value { result
        ≡ (if has flags WFF then base else (base + i * octets header.port) % 256 ^ octets header.address) }
{
    if flags & WFF != 0 {
        base
    } else {
        narrowed(
            header.address,
            base.wrapping_add(i as u64 * u64::from(header.port.octets())),
        )
    }
}

// Write i. `base` is the base address of the writes.
#[inline(always)]
fn write_op(bus: Width, view: &RecordView<'_>, base: u64, i: usize) -> Op
    requires narrow { octets view.now.header.port ≤ octets bus }
    requires base { base ≡ view.now.item.write_base }
    requires inside { i < view.now.item.head.writes }
    ensures value { result ≡ write_at bus view.now.header view.now.item i }
    ensures fits { FitsBus bus result }
{
    let (header, head) = (view.header(), view.head());
    let adr = write_address(header, head.flags, base, i);
    access(header.port, bus, true, adr, view.value(i), head.enable)
}

// Read i.
#[inline(always)]
fn read_op(bus: Width, view: &RecordView<'_>, i: usize) -> Op
    requires narrow { octets view.now.header.port ≤ octets bus }
    requires inside { i < view.now.item.head.reads }
    ensures value { result ≡ read_at bus view.now.header view.now.item i }
    ensures fits { FitsBus bus result }
{
    let (header, head) = (view.header(), view.head());
    access(header.port, bus, false, view.address(i), 0, head.enable)
}

/// How many of so many accesses go to the bus: none where the flag says configuration space.
pub fn on_bus(flags: u8, config: u8, count: u8) -> usize
    ensures value { result ≡ (if has flags config then 0 else count) }
    ensures most { result ≤ count }
{
    if flags & config != 0 {
        0
    } else {
        usize::from(count)
    }
}

// Adds the operations of the first writes.
#[inline(always)]
fn put_writes(bus: Width, view: &RecordView<'_>, count: usize, ops: &mut Vec<Op>)
    requires narrow { octets view.now.header.port ≤ octets bus }
    requires count { count ≤ view.now.item.head.writes }
    requires room { vec_len ops.old + count ≤ vec_capacity ops.old }
    requires fit { AllFitBus bus ops.old.items }
    ensures items { ops.new.items ≡ ops.old.items ++ upto count (write_at bus view.now.header view.now.item) }
    ensures len { vec_len ops.new ≡ vec_len ops.old + count }
    ensures capacity { vec_capacity ops.old ≤ vec_capacity ops.new }
    ensures fit { AllFitBus bus ops.new.items }
{
    let base = view.write_base();
    for i in 0..count {
        ops.push_reserved(write_op(bus, view, base, i));
    }
}

// Adds the operations of the first reads.
#[inline(always)]
fn put_reads(bus: Width, view: &RecordView<'_>, count: usize, ops: &mut Vec<Op>)
    requires narrow { octets view.now.header.port ≤ octets bus }
    requires count { count ≤ view.now.item.head.reads }
    requires room { vec_len ops.old + count ≤ vec_capacity ops.old }
    requires fit { AllFitBus bus ops.old.items }
    ensures items { ops.new.items ≡ ops.old.items ++ upto count (read_at bus view.now.header view.now.item) }
    ensures len { vec_len ops.new ≡ vec_len ops.old + count }
    ensures capacity { vec_capacity ops.old ≤ vec_capacity ops.new }
    ensures fit { AllFitBus bus ops.new.items }
{
    for i in 0..count {
        ops.push_reserved(read_op(bus, view, i));
    }
}

/// Whether a cycle ends after a record with these flags.
pub fn is_last(flags: u8) -> bool
    ensures value { result ≡ has flags CYC }
{
    flags & CYC != 0
}

// Puts the operations of a record in place of those that there are.
#[inline(always)]
fn put_accesses(bus: Width, view: &RecordView<'_>, ops: &mut Vec<Op>)
    requires narrow { octets view.now.header.port ≤ octets bus }
    requires room { 510 ≤ vec_capacity ops.old }
    ensures items { ops.new.items ≡ record_ops bus view.now.header view.now.item }
    ensures most { vec_len ops.new ≤ 510 }
    ensures fit { AllFitBus bus ops.new.items }
    ensures room { 510 ≤ vec_capacity ops.new }
{
    ops.clear();
    let head = view.head();
    put_writes(bus, view, on_bus(head.flags, WCA, head.writes), ops);
    put_reads(bus, view, on_bus(head.flags, RCA, head.reads), ops);
}

// The same, of a record that is not of 32 bits.
#[inline(never)]
fn put_others(bus: Width, view: &RecordView<'_>, ops: &mut Vec<Op>)
    requires narrow { octets view.now.header.port ≤ octets bus }
    requires room { 510 ≤ vec_capacity ops.old }
    ensures items { ops.new.items ≡ record_ops bus view.now.header view.now.item }
    ensures most { vec_len ops.new ≤ 510 }
    ensures fit { AllFitBus bus ops.new.items }
    ensures room { 510 ≤ vec_capacity ops.new }
{
    put_accesses(bus, view, ops);
}

/// Puts the operations of a record in place of those that there are.
#[inline(always)]
pub fn put_ops(bus: Width, view: &RecordView<'_>, ops: &mut Vec<Op>)
    requires narrow { octets view.now.header.port ≤ octets bus }
    requires room { 510 ≤ vec_capacity ops.old }
    ensures items { ops.new.items ≡ record_ops bus view.now.header view.now.item }
    ensures most { vec_len ops.new ≤ 510 }
    ensures fit { AllFitBus bus ops.new.items }
    ensures room { 510 ≤ vec_capacity ops.new }
{
    // The common case, in code for its widths alone.
    match (bus, view.words()) {
        (Width::W32, Some(words)) => put_accesses(Width::W32, &words, ops),
        _ => put_others(bus, view, ops),
    }
}
