//! The configuration space of a slave, and its error register.
ghost use Rattle.std.specs.Prelude.{◌≡◌, ◌<◌, ◌≤◌, ◌+◌, ◌*◌, ◌%◌, ◌^◌, length, take};
ghost use Rattle.eb_base.specs.Width.{octets};
ghost use Rattle.eb_base.specs.Lanes.{port_address};
ghost use Rattle.eb_session.specs.Configuration.{config_at, config_word, failed as failed_bit, register};

use eb_base::{Width, get, selected};
use wb_signals::{Answer, Master};

/// The word that a read of the configuration space gives a port.
#[tactic(auto, unfolding(crate::specs::Configuration::config_word))]
#[inline(never)]
pub fn config(port: Width, root: u64, errors: u64, adr: u64, sel: u8) -> u64
    ensures value { result ≡ config_word port root errors adr sel }
    ensures most { result < 256 ^ octets port }
{
    let at = port_word(port, adr);
    selected(port, sel, octets_at(port, root, errors, at))
}

// The address with the bits below the port's width dropped.
fn port_word(port: Width, adr: u64) -> u64
    ensures value { result ≡ port_address port adr }
    ensures aligned { result % octets port ≡ 0 }
{
    match port {
        Width::W8 => adr,
        Width::W16 => adr - adr % 2,
        Width::W32 => adr - adr % 4,
        Width::W64 => adr - adr % 8,
    }
}

// The number of the port's width at a place of the configuration space: the error register, the root table's
// address, and zeros.
fn octets_at(port: Width, root: u64, errors: u64, at: u64) -> u64
    requires aligned { at % octets port ≡ 0 }
    ensures value { result ≡ config_at port root errors at }
{
    if at < 8 {
        get(port, &errors.to_be_bytes(), at as usize)
    } else if at < 16 {
        get(port, &root.to_be_bytes(), at as usize - 8)
    } else {
        0
    }
}

/// The register after one more answer.
#[inline(always)]
pub fn shift(errors: u64, answer: Answer) -> u64
    ensures value { result ≡ (2 * errors + failed_bit answer) % 2 ^ 64 }
{
    errors.wrapping_mul(2).wrapping_add(failed(answer))
}

fn failed(answer: Answer) -> u64
    ensures value { result ≡ failed_bit answer }
{
    match answer {
        Answer::Ack(_) => 0,
        Answer::Err | Answer::Rty => 1,
    }
}

/// The error register after the first answers of the master's last record.
#[tactic(auto, using(crate::proofs::ListLemmas::register_more))]
pub fn shifted<M: Master>(master: &M, count: usize, errors: u64) -> u64
    requires count { count ≤ length (M.answered master.now) }
    ensures value { result ≡ register errors (take count (M.answered master.now)) }
{
    let mut register = errors;
    for i in 0..count {
        register = shift(register, master.answer(i));
    }
    register
}
