//! What a sound bus and its items keep. These functions do nothing: their clauses say it.

ghost use Rattle.soc_desc.specs.Sound.{TopOfSound, ItemsOfSound, ApartOnSound, WiderOfSound, RamOfSound, RegsOfSound, FifoOfSound, BridgeOfSound, LevelsFall, LevelsOfBridge};

/// On a sound bus the ROM and each item lie within the bus's addresses, none of them has an address that another one
/// has, and each item is sound. A bus that is sound where buses have 32 data bits is so where they may have 64.
pub fn sound_bus()
    ensures top { TopOfSound }
    ensures items { ItemsOfSound }
    ensures apart { ApartOnSound }
    ensures wider { WiderOfSound }
{}

/// A sound item keeps the limits of its kind; the bus behind a bridge is sound, and its addresses lie within those of
/// the bridge's bus.
pub fn sound_item()
    ensures ram { RamOfSound }
    ensures regs { RegsOfSound }
    ensures fifo { FifoOfSound }
    ensures bridge { BridgeOfSound }
{}

/// A bus behind a bridge has fewer levels of buses than the bridge's bus.
pub fn levels()
    ensures fall { LevelsFall }
    ensures bridge { LevelsOfBridge }
{}
