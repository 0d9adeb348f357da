//! The rows of a bus, clock by clock, in one flat room.
ghost use Rattle.std.specs.Prelude.{◌≡◌, ◌≤◌, ◌<◌, ◌+◌, ◌-◌, ◌*◌, ◌++◌, ◌∷◌, [], length, max, take, drop, slice_get, vec_capacity, Some, OnOk, OnErr};

use crate::view::RowView;
use eb_base::NoMemory;
use std::alloc::Global;
use std::marker::Model;
use wb_signals::PortRow;

/// The rows of a bus with so many ports, at least one, and so many top slaves, at most 128.
///
/// It has spare room for more rows, taken by `room`. An `add` uses that of one row and takes no memory. A row costs 32
/// octets a port and 2 a top slave.
#[derive(Drop)]
pub struct Wave {
    ports: Vec<PortRow>,
    holders: Vec<Option<u8>>,
    rows: usize,
    spare: usize,
    port_count: u8,
    slave_count: u8,
}

impl Model for Wave {
    ghost use Rattle.std.specs.Prelude.{◌≤◌, length, vec_capacity};
    ghost use Rattle.soc_wave.specs.Flat.{WaveState, rows_in, HasParts};

    ghost Value = { WaveState };

    ghost view = { λ w. record {
      rows = rows_in w.rows w.port_count w.slave_count w.ports.items w.holders.items;
      spare = w.spare;
      ports = w.port_count;
      slaves = w.slave_count;
    } };

    ghost invariant = { λ w. (1 ≤ w.port_count) × (w.slave_count ≤ 128)
        × HasParts (length w.ports.items) (vec_capacity w.ports) w.rows w.spare w.port_count
        × HasParts (length w.holders.items) (vec_capacity w.holders) w.rows w.spare w.slave_count };
}

impl Wave {
    /// A wave without rows and without spare room. It takes no memory.
    pub fn new(alloc: Global, ports: u8, slaves: u8) -> Wave
        requires some_port { 1 ≤ ports }
        requires few_slaves { slaves ≤ 128 }
        ensures empty { result ≡ record { rows = []; spare = 0; ports = ports; slaves = slaves } }
    {
        Wave {
            ports: Vec::new(alloc),
            holders: Vec::new(alloc),
            rows: 0,
            spare: 0,
            port_count: ports,
            slave_count: slaves,
        }
    }

    /// Makes room for at least so many more rows. Where memory is refused, all is as before.
    pub fn room(&mut self, rows: usize) -> Result<(), NoMemory>
        ensures ok { OnOk result (self.new ≡ record self.old { spare = max self.old.spare rows }) }
        ensures err { OnErr result (self.new ≡ self.old) }
    {
        if rows <= self.spare {
            return Ok(());
        }
        reserve_parts(&mut self.ports, rows, self.port_count)?;
        reserve_parts(&mut self.holders, rows, self.slave_count)?;
        self.spare = rows;
        Ok(())
    }

    /// Adds the row of another clock, in spare room.
    pub fn add(&mut self, ports: &[PortRow], holders: &[Option<u8>])
        requires spare { 1 ≤ self.old.spare }
        requires ports { length ports.now ≡ self.old.ports }
        requires holders { length holders.now ≡ self.old.slaves }
        ensures added { self.new ≡ record self.old {
          rows = self.old.rows ++ record { ports = ports.now; holders = holders.now } ∷ [];
          spare = self.old.spare - 1;
        } }
    {
        append(&mut self.ports, ports);
        append(&mut self.holders, holders);
        self.rows += 1;
        self.spare -= 1;
    }

    /// How many rows it has.
    pub fn len(&self) -> usize
        ensures len { result ≡ length self.now.rows }
    {
        self.rows
    }

    /// The row of the clock `i`.
    pub fn get(&self, i: usize) -> RowView<'_>
        requires in_range { i < length self.now.rows }
        ensures row { slice_get self.now.rows i ≡ Some result }
        ensures ports { length result.ports ≡ self.now.ports }
        ensures holders { length result.holders ≡ self.now.slaves }
        ensures few_holders { length result.holders ≤ 128 }
    {
        RowView::of(
            part(&self.ports, i, self.port_count),
            part(&self.holders, i, self.slave_count),
        )
    }
}

/// Makes room for so many more parts of `n` items each.
fn reserve_parts<T>(room: &mut Vec<T>, parts: usize, n: u8) -> Result<(), NoMemory>
    ensures room { OnOk result (length room.old.items + parts * n ≤ vec_capacity room.new) }
    ensures items { room.new.items ≡ room.old.items }
    ensures grows { vec_capacity room.old ≤ vec_capacity room.new }
{
    match parts.checked_mul(usize::from(n)) {
        Some(more) => {
            room.reserve(more)?;
            Ok(())
        }
        None => Err(NoMemory),
    }
}

/// Adds items for which there is room.
fn append<T: Copy>(room: &mut Vec<T>, items: &[T])
    requires room { length room.old.items + length items.now ≤ vec_capacity room.old }
    ensures items { room.new.items ≡ room.old.items ++ items.now }
    ensures len { length room.new.items ≡ length room.old.items + length items.now }
    ensures kept { vec_capacity room.old ≤ vec_capacity room.new }
{
    match room.extend_from_slice(items) {
        Ok(()) => {}
        Err(_) => unreachable!(),
    }
}

/// The part with number `i`, of `n` items each.
fn part<T>(items: &[T], i: usize, n: u8) -> &[T]
    requires within { i * n + n ≤ length items.now }
    ensures part { result.now ≡ take n (drop (i * n) items.now) }
{
    let n = usize::from(n);
    let from = i * n;
    &items[from..from + n]
}
