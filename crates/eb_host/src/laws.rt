//! What holds of a host's whole life. The function does nothing: its clause says it.

ghost use Rattle.eb_host.specs.Life.{WritesAsks};

/// What a host writes to its link is the probe, the header, and the octets that its calls ask, in order, up to the
/// first call with a fault that is kept, of which a front may have gone out. Nothing is written after that, and
/// nothing by a call that answers `TooWide` or `NoMemory`.
pub fn life()
    ensures writes { WritesAsks }
{}
