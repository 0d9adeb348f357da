//! The rules that a description can break.
ghost use Rattle.std.specs.Prelude.{◌≡◌};
ghost use Rattle.soc_desc.specs.declared.fault.DescFault.TheVariants.{NoMemory};

use crate::path::Path;
use std::alloc::{AllocError, AllocFailed};

/// The first rule that a description breaks, and where.
#[derive(Debug, Drop)]
pub enum DescFault {
    /// The text is no JSON value.
    NotJson,
    /// A key that must be there isn't.
    Missing(Path),
    /// An object has a key that it can't have.
    Unknown(Path),
    /// A value has another JSON type, a number another form, or a word isn't known.
    Kind(Path),
    /// A number or the length of a list is out of its range.
    Range(Path),
    /// What stands at the second path takes an address that what stands at the first one has.
    Overlap(Path, Path),
    /// An item or a ROM takes addresses beyond the last one of its bus.
    Outside(Path),
    /// There are too many octets, items, devices or records.
    TooMany(Path),
    /// A bus lies too many bridges deep.
    TooDeep(Path),
    /// A text is no name.
    Name(Path),
    /// There was no memory to read on.
    NoMemory,
}

impl From<AllocError> for DescFault {
    ghost from_gives = { λ _ e. e ≡ NoMemory };

    fn from(_e: AllocError) -> DescFault {
        DescFault::NoMemory
    }
}

impl<T: Drop> From<AllocFailed<T>> for DescFault {
    ghost from_gives = { λ _ e. e ≡ NoMemory };

    fn from(_e: AllocFailed<T>) -> DescFault {
        DescFault::NoMemory
    }
}
