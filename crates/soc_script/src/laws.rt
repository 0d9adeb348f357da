//! What holds of scripts and their texts, as the contracts of functions that do nothing.

ghost use Rattle.soc_script.specs.Laws.{LinesAreTaken, NeverBoth, OneOfBoth, OneRefusal, OneScript, RefusalBelow};
ghost use Rattle.soc_script.specs.Spelling.{LineIsSpelled};

/// A text spells one script or is refused at one line, and never both.
pub fn one_reading()
    ensures script { OneScript }
    ensures refusal { OneRefusal }
    ensures never_both { NeverBoth }
    ensures one_of_both { OneOfBoth }
    ensures below { RefusalBelow }
{}

/// A bus of the width for which a script was read, and with so many masters, takes each of its lines.
pub fn taken_lines()
    ensures lines { LinesAreTaken }
{}

/// The line that is read of a text is the one that it spells.
pub fn spelled_lines()
    ensures line { LineIsSpelled }
{}
