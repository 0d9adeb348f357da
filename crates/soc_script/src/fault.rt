// Why a text is refused as a script.
ghost use Rattle.std.specs.Prelude.{◌≡◌};
ghost use Rattle.soc_script.specs.declared.fault.ScriptFault.TheVariants as fault;

use eb_base::NoMemory;
use std::alloc::AllocFailed;

/// Why a text is refused as a script.
#[derive(Clone, Copy, Debug, PartialEq, Eq)]
pub enum ScriptFault {
    /// The number of the first line that breaks a rule or passes a limit, from 1 to 257, or 0 where the text has more
    /// than 1,048,576 octets.
    Refused(u32),
    /// There was no memory.
    NoMemory,
}

impl From<NoMemory> for ScriptFault {
    ghost from_gives = { λ _ e. e ≡ fault.NoMemory };

    fn from(_fault: NoMemory) -> ScriptFault {
        ScriptFault::NoMemory
    }
}

impl<T: Drop> From<AllocFailed<T>> for ScriptFault {
    ghost from_gives = { λ _ e. e ≡ fault.NoMemory };

    fn from(_fault: AllocFailed<T>) -> ScriptFault {
        ScriptFault::NoMemory
    }
}
