//! What is told of a value that threads take in turns.

/// A value with a history, to which several masters add.
///
/// `history` is the list of entries so far. `stake` is, for each master by its number, what the others leave as it is.
/// `charter` is what nobody changes. Contracts alone see them: a value of this kind has no call of the trait.
pub trait Ledgered {
    ghost use Rattle.std.specs.Prelude.{ℕ, List};
    ghost use Rattle.wb_signals.specs.History.{Entry};

    ghost Stake: { Type 0 };

    ghost Charter: { Type 0 };

    ghost history: { Self → List Entry };

    ghost stake: { Self → ℕ → Self.Stake };

    ghost charter: { Self → Self.Charter };
}
