//! Who is granted, and the phases that the ports step to.
ghost use Rattle.std.specs.Prelude.{◌≡◌, ◌≢◌, ◌≤◌, ◌<◌, ℕ, Some, false, length, take, bit_and};
ghost use Rattle.wb_crossbar.specs.Grant.{IsGrant, IsNext};
ghost use Rattle.wb_crossbar.specs.Alone.{lone_grant};
ghost use Rattle.soc_core.specs.Core.{granted_from, held};
ghost use Rattle.soc_bus.specs.View.{phase_of, states, rooms, sets_given, sets_wanted, wanting};
ghost use Rattle.soc_bus.specs.Look.{seen, nothing_seen, looked_from};

use crate::cycle::Cycle;
use crate::phase::Phase;
use crate::recorder::PairRecorder;
use wb_crossbar::Arbiter;
use wb_signals::SlaveSet;

/// What one look at the ports tells: all slaves that are held, how many ports wait, the last of them and its set, and
/// whether a port has released its set.
#[derive(Clone, Copy)]
struct Look {
    held: u128,
    waiting: usize,
    last: usize,
    set: u128,
    leaves: bool,
}

/// Steps 1 and 2 of a tick: the ports that were released are idle, and the arbiter grants.
///
/// The arbiter is asked only where a port waits for a set that is free, since else it grants nobody.
pub fn grant_all<P: PairRecorder>(arbiter: &mut Arbiter, cycles: &mut [Cycle<P>]) -> u32
    requires ports { length cycles.old ≡ arbiter.old.ports }
    requires few { length cycles.old ≤ 16 }
    requires within { arbiter.old.first < arbiter.old.ports }
    ensures grant { IsGrant arbiter.old (wanting (states cycles.old)) (held (states cycles.old)) result }
    ensures next { IsNext arbiter.old result arbiter.new.first }
    ensures ports { arbiter.new.ports ≡ arbiter.old.ports }
    ensures states { states cycles.new ≡ granted_from result 0 (states cycles.old) }
    ensures rooms { rooms cycles.new ≡ rooms cycles.old }
{
    let look = look_at(cycles);
    if !may_grant(cycles, look) {
        leave_all(cycles, look);
        return 0;
    }
    grant_free(arbiter, cycles, look)
}

/// Looks at the ports once.
fn look_at<P: PairRecorder>(cycles: &[Cycle<P>]) -> Look
    requires few { length cycles.now ≤ 16 }
    ensures look { result ≡ looked_from 0 (states cycles.now) nothing_seen }
{
    let mut look = Look {
        held: 0,
        waiting: 0,
        last: 0,
        set: 0,
        leaves: false,
    };
    for i in 0..cycles.len() {
        see(&mut look, cycles[i].phase(), i);
    }
    look
}

/// Adds what one more port tells, in this phase.
fn see(look: &mut Look, phase: Phase, i: usize)
    requires few { look.old.waiting < 16 }
    ensures seen { look.new ≡ seen (phase_of phase) i look.old }
{
    match phase {
        Phase::Idle => {}
        Phase::Wants(set) => {
            look.waiting += 1;
            look.last = i;
            look.set = set.0;
        }
        Phase::Holds(set) => look.held |= set.0,
        Phase::Leaves => look.leaves = true,
    }
}

/// Whether a port waits for a set of which nobody holds a slave.
fn may_grant<P: PairRecorder>(cycles: &[Cycle<P>], look: Look) -> bool
    requires look { look ≡ looked_from 0 (states cycles.now) nothing_seen }
    ensures none { result ≡ false → (m set : ℕ) → wanting (states cycles.now) m ≡ Some set
        → bit_and (held (states cycles.now)) set ≢ 0 }
{
    look.waiting > 0 && any_free(cycles, look.held)
}

/// Whether a port waits for a set that meets none of these slaves.
fn any_free<P: PairRecorder>(cycles: &[Cycle<P>], held: u128) -> bool
    ensures none { result ≡ false → (m set : ℕ) → wanting (states cycles.now) m ≡ Some set
        → bit_and held set ≢ 0 }
{
    for cycle in cycles {
        if cycle.is_free(held) {
            return true;
        }
    }
    false
}

/// Steps the ports where nobody is granted: those that were released are idle.
fn leave_all<P: PairRecorder>(cycles: &mut [Cycle<P>], look: Look)
    requires few { length cycles.old ≤ 16 }
    requires look { look ≡ looked_from 0 (states cycles.old) nothing_seen }
    ensures states { states cycles.new ≡ granted_from 0 0 (states cycles.old) }
    ensures rooms { rooms cycles.new ≡ rooms cycles.old }
{
    if look.leaves {
        step_all(cycles, 0);
    }
}

/// Asks the arbiter, and steps the ports by its grant. Where one port waits alone, the arbiter looks at no other.
fn grant_free<P: PairRecorder>(arbiter: &mut Arbiter, cycles: &mut [Cycle<P>], look: Look) -> u32
    requires ports { length cycles.old ≡ arbiter.old.ports }
    requires few { length cycles.old ≤ 16 }
    requires look { look ≡ looked_from 0 (states cycles.old) nothing_seen }
    ensures grant { IsGrant arbiter.old (wanting (states cycles.old)) (held (states cycles.old)) result }
    ensures next { IsNext arbiter.old result arbiter.new.first }
    ensures ports { arbiter.new.ports ≡ arbiter.old.ports }
    ensures states { states cycles.new ≡ granted_from result 0 (states cycles.old) }
    ensures rooms { rooms cycles.new ≡ rooms cycles.old }
{
    if look.waiting == 1 {
        grant_lone(arbiter, cycles, look)
    } else {
        grant_many(arbiter, cycles, look)
    }
}

/// Asks the arbiter of the one port that waits.
fn grant_lone<P: PairRecorder>(arbiter: &mut Arbiter, cycles: &mut [Cycle<P>], look: Look) -> u32
    requires ports { length cycles.old ≡ arbiter.old.ports }
    requires few { length cycles.old ≤ 16 }
    requires look { look ≡ looked_from 0 (states cycles.old) nothing_seen }
    requires lone { look.waiting ≡ 1 }
    requires within { look.last < length cycles.old }
    ensures grant { IsGrant arbiter.old (wanting (states cycles.old)) (held (states cycles.old)) result }
    ensures next { IsNext arbiter.old result arbiter.new.first }
    ensures ports { arbiter.new.ports ≡ arbiter.old.ports }
    ensures states { states cycles.new ≡ granted_from result 0 (states cycles.old) }
    ensures rooms { rooms cycles.new ≡ rooms cycles.old }
{
    let granted = arbiter.step_lone(look.last as u8, SlaveSet(look.set), SlaveSet(look.held));
    step_lone(cycles, look, granted);
    lone_grant(granted, look.last)
}

/// Steps the ports where one waits, and is granted or isn't. Where none leaves, no other phase changes.
fn step_lone<P: PairRecorder>(cycles: &mut [Cycle<P>], look: Look, granted: bool)
    requires few { length cycles.old ≤ 16 }
    requires within { look.last < length cycles.old }
    requires look { look ≡ looked_from 0 (states cycles.old) nothing_seen }
    requires lone { look.waiting ≡ 1 }
    ensures states { states cycles.new ≡ granted_from (lone_grant granted look.last) 0 (states cycles.old) }
    ensures rooms { rooms cycles.new ≡ rooms cycles.old }
{
    if look.leaves {
        step_all(cycles, lone_grant(granted, look.last));
    } else {
        cycles[look.last].step(granted);
    }
}

/// The grant of this port alone, or of none.
fn lone_grant(granted: bool, port: usize) -> u32
    requires few { port < 16 }
    ensures grant { result ≡ lone_grant granted port }
{
    if granted { 1 << port } else { 0 }
}

/// Asks the arbiter of all ports.
fn grant_many<P: PairRecorder>(arbiter: &mut Arbiter, cycles: &mut [Cycle<P>], look: Look) -> u32
    requires ports { length cycles.old ≡ arbiter.old.ports }
    requires few { length cycles.old ≤ 16 }
    requires look { look ≡ looked_from 0 (states cycles.old) nothing_seen }
    ensures grant { IsGrant arbiter.old (wanting (states cycles.old)) (held (states cycles.old)) result }
    ensures next { IsNext arbiter.old result arbiter.new.first }
    ensures ports { arbiter.new.ports ≡ arbiter.old.ports }
    ensures states { states cycles.new ≡ granted_from result 0 (states cycles.old) }
    ensures rooms { rooms cycles.new ≡ rooms cycles.old }
{
    let wants = wants_in(cycles);
    let grant = arbiter.step(&wants[..cycles.len()], SlaveSet(look.held));
    step_all(cycles, grant);
    grant
}

/// The sets that the ports wait for.
fn wants_in<P: PairRecorder>(cycles: &[Cycle<P>]) -> [Option<SlaveSet>; 16]
    requires few { length cycles.now ≤ 16 }
    ensures wants { sets_given (take (length cycles.now) result) ≡ sets_wanted (states cycles.now) }
{
    let mut wants = [None; 16];
    for i in 0..cycles.len() {
        wants[i] = cycles[i].wants();
    }
    wants
}

/// Steps each port to its next phase, by the grant.
fn step_all<P: PairRecorder>(cycles: &mut [Cycle<P>], grant: u32)
    requires few { length cycles.old ≤ 16 }
    ensures states { states cycles.new ≡ granted_from grant 0 (states cycles.old) }
    ensures rooms { rooms cycles.new ≡ rooms cycles.old }
{
    for i in 0..cycles.len() {
        cycles[i].step((grant >> i) & 1 == 1);
    }
}
