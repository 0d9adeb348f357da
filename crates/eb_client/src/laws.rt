//! What holds of all words of a client. This function does nothing: its clause says it.

ghost use Rattle.eb_client.specs.ClientWords.{OneTask};

/// Words have one command of a client at most.
pub fn one_task()
    ensures one { OneTask }
{}
