//! What holds of each generated stream. The functions do nothing: their clauses say it.

ghost use Rattle.eb_load.specs.Stream.{SpellsLoad, IsShort};

/// The octets of a generated stream spell its items, for a slave on a bus of 32 bits: the header, then its records.
/// They are 4 and at most 44 a record.
pub fn is_stream()
    ensures spells { SpellsLoad }
    ensures short { IsShort }
{}
