//! What holds of every walk. This function does nothing: its clause says it.

ghost use Rattle.sdb_walk.specs.Laws.{OneResult};

/// What a reader told before and after a walk decides the result, but for want of memory.
pub fn one_result<C>()
    ensures one { OneResult C }
{}
