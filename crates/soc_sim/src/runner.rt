//! The clocks of a script.
ghost use Rattle.std.specs.Prelude.{◌≡◌, [], length, IfOk, OnOk};
ghost use Rattle.soc_desc.specs.Accepted.{IsAccepted};
ghost use Rattle.soc_core.specs.Built.{fabric_of};
ghost use Rattle.soc_core.specs.Core.{built_core};
ghost use Rattle.soc_script_wave.specs.Runner.{is_over, left_from, prepared_from};
ghost use Rattle.soc_script_wave.specs.ScriptOwn.{OwnIsAsked};
ghost use Rattle.soc_script_wave.specs.Sets.{AllLines};
ghost use Rattle.soc_sim.specs.Laws.{ShowsScript};
ghost use Rattle.soc_sim.specs.Steps.{LeadsToClock, MayAllPrepare};

use crate::steps::{is_over, prepare_all};
use crate::todos::Todos;
use crate::watched::WatchedBus;
use eb_base::NoMemory;
use soc_bus::{Bus, BusRecorder};
use soc_desc::Description;
use soc_script::{Script, ScriptLine};
use std::alloc::Global;

/// The next clock: what is done before its tick, and the tick. The answer is whether all was over before the tick.
fn run_clock<R: BusRecorder>(
    bus: &mut WatchedBus<R>,
    todos: &mut Todos<'_>,
) -> Result<bool, NoMemory>
    requires count { length todos.old ≡ bus.old.description.masters }
    requires may { MayAllPrepare (fabric_of bus.old.description) (length bus.old.rows) 0 todos.old bus.old.core }
    ensures clock { OnOk result (LeadsToClock todos.old bus.old bus.new) }
    ensures over { IfOk result (λ over. over ≡ is_over 0 (left_from 0 todos.old bus.old.core)
        (prepared_from (fabric_of bus.old.description) (length bus.old.rows) 0 todos.old bus.old.core)) }
    ensures left { OnOk result (todos.new ≡ left_from 0 todos.old bus.old.core) }
    ensures description { OnOk result (bus.new.description ≡ bus.old.description) }
{
    let t = bus.clock();
    bus.room(1)?;
    prepare_all(bus, t, todos)?;
    let over = is_over(bus.bus(), todos);
    bus.tick();
    Ok(over)
}

/// Runs a script on a bus that is as it was built.
fn run_clocks<R: BusRecorder>(
    alloc: Global,
    bus: &mut WatchedBus<R>,
    lines: &[ScriptLine],
) -> Result<(), NoMemory>
    requires accepted { IsAccepted bus.old.description }
    requires lines { AllLines (fabric_of bus.old.description) lines.now }
    requires built { bus.old.core ≡ built_core (fabric_of bus.old.description) }
    requires rows { bus.old.rows ≡ [] }
    ensures description { OnOk result (bus.new.description ≡ bus.old.description) }
    ensures ran { OnOk result (ShowsScript lines.now bus.new) }
    ensures own { OnOk result (OwnIsAsked (fabric_of bus.new.description) lines.now bus.new.core) }
{
    let mut todos = Todos::of(alloc, lines, bus.bus().masters())?;
    'clocks: while !run_clock(bus, &mut todos)? {}
    Ok(())
}

/// Builds the bus of a description, and runs a script on it, clock by clock, up to the first clock before whose tick
/// every line is done and every port released. The bus is watched from its first clock on.
///
/// The lines are those of a script that was read for this bus (`laws::scripts`). Room for rows is taken before each
/// tick, so that a tick takes no memory. The one refusal is want of memory.
pub fn run_script<R: BusRecorder>(
    alloc: Global,
    recorder: R,
    description: &Description,
    script: &Script,
) -> Result<WatchedBus<R>, NoMemory>
    requires none { (R.journal recorder).entries ≡ [] }
    requires accepted { IsAccepted description.now }
    requires lines { AllLines (fabric_of description.now) script.now }
    ensures description { IfOk result (λ bus. bus.description ≡ description.now) }
    ensures ran { IfOk result (λ bus. ShowsScript script.now bus) }
    ensures own { IfOk result (λ bus. OwnIsAsked (fabric_of description.now) script.now bus.core) }
{
    let bus = Bus::build(alloc, recorder, description)?;
    let mut bus = WatchedBus::new(alloc, bus);
    run_clocks(alloc, &mut bus, script.lines())?;
    Ok(bus)
}
