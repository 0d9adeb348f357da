//! What the images of every description hold. This function does nothing: its clauses say it.

ghost use Rattle.sdb_build.specs.Laws.{ListedAsItself, ImagesOfBuses, TablesOfSound};

/// The images of a description are those of the tables of its buses, in the same order (`images`), and a bus is listed
/// as itself (`itself`). The table of each bus of a description that keeps the rules begins with an interconnect that
/// counts all its records, and each of these has 64 octets (`tables`).
pub fn whole_tables()
    ensures itself { ListedAsItself }
    ensures images { ImagesOfBuses }
    ensures tables { TablesOfSound }
{}
