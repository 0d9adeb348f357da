//! What holds of all words and of every build text. These functions do nothing: their clauses say it.

ghost use Rattle.eb_text.specs.Command.{OneCommand};
ghost use Rattle.eb_text.specs.Build.{LineForEachRecord, BuildByRecords};

/// Words have one command at most.
pub fn one_command()
    ensures one { OneCommand }
{}

/// The text of a table of records that have 64 octets each is its line, with their number, and then a line for each
/// record (`table`). So the build text of an accepted description is, for each of its buses, where the bus's table
/// stands and how many records it has, and then a line for each of these records (`build`).
pub fn one_line_a_record()
    ensures table { LineForEachRecord }
    ensures build { BuildByRecords }
{}
