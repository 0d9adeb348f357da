//! Laws of a bus that runs a script, as the contracts of functions that do nothing.

ghost use Rattle.soc_script_wave.specs.ScriptLaws.{ScriptIsShown};
ghost use Rattle.soc_script_wave.specs.ScriptOwn.{ScriptIsRun};
ghost use Rattle.soc_script_wave.specs.Work.{ScriptEnds};

/// What a watched bus shows that runs a script.
pub fn shown()
    ensures script { ScriptIsShown }
{}

/// What a script leaves in the journal, and after how many clocks its run ends.
pub fn scripts()
    ensures own { ScriptIsRun }
    ensures ends { ScriptEnds }
{}
