//! Laws of histories, as the contracts of functions that do nothing.

ghost use Rattle.soc_journal.specs.Growth.{OwnOfBoth, OwnOfMine, OwnIsMine, OthersLeaveOwn, ExtendsItself, ExtendsOn, ExtendsByOn, AfterBoth, LegalOn, LegalFront};

/// A master's own part of a history.
pub fn own_part()
    ensures both { OwnOfBoth }
    ensures mine { OwnOfMine }
    ensures all_mine { OwnIsMine }
    ensures others { OthersLeaveOwn }
{}

/// A history extends itself and what it extends extends.
pub fn extension()
    ensures itself { ExtendsItself }
    ensures on { ExtendsOn }
    ensures by_on { ExtendsByOn }
{}

/// A legal history goes on from what it leaves, and its fronts are legal.
pub fn legal_growth()
    ensures after { AfterBoth }
    ensures on { LegalOn }
    ensures front { LegalFront }
{}
