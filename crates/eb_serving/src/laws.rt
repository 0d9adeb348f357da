//! What holds of all words of a server. This function does nothing: its clause says it.

ghost use Rattle.eb_serving.specs.ServingWords.{OneServing};

/// Words have one command of a server at most.
pub fn one_serving()
    ensures one { OneServing }
{}
