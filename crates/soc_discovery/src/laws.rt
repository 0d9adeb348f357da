//! What a walk finds on every accepted description. This function does nothing: its clauses say it.

ghost use Rattle.soc_discovery.specs.Law.{Discovered, OnlyDiscovered, ReaderDiscovers, LeftAsBuilt};

/// Of an accepted description, a walk from the root's table finds the tree, where its answers are those that the system
/// gives, as it is built, to reads of 32 bits at the addresses asked for. There are such answers (`found`), and each
/// walk that has ended with such answers found the tree (`only`). So discovery over a reader that gives such answers
/// finds it, or there is no memory (`reader`). The reads leave the system as it was built (`left`).
pub fn discovery<C>()
    ensures found { Discovered C }
    ensures only { OnlyDiscovered C }
    ensures reader { ReaderDiscovers C }
    ensures left { LeftAsBuilt C }
{}
