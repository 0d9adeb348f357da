//! Laws of a watched bus, as the contracts of functions that do nothing.

ghost use Rattle.soc_wave.specs.Laws.{WatchedIsLegal, RisesHaveNames};
ghost use Rattle.soc_wave.specs.Readings.{AnsweredWhereDue, AnsweredByNumber, QueueIsPlace};

/// What the rows show that ticks add.
pub fn waves()
    ensures legal { WatchedIsLegal }
    ensures named { RisesHaveNames }
    ensures answered { AnsweredWhereDue }
    ensures by_number { AnsweredByNumber }
{}

/// What the rules of a wave say on the bus of a description.
pub fn described()
    ensures queues { QueueIsPlace }
{}
