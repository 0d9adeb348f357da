//! Discovery through a host and a session in memory.

ghost use Rattle.std.specs.Prelude.{◌≡◌, ◌<◌, ◌^◌, [], IfOk, Err};
ghost use Rattle.soc_desc.specs.Accepted.{IsAccepted};
ghost use Rattle.soc_discovery.specs.Tree.{tree_of};
ghost use Rattle.eb_base.specs.declared.width.Width.TheVariants.{W32};
ghost use Rattle.eb_loopback.specs.Joined.{new_loopback};
ghost use Rattle.eb_tour.specs.Tour.{FindsUnlessStopped, Tours};

use eb_base::{NoMemory, Width, Widths};
use eb_host::{Host, HostFault};
use eb_loopback::Loopback;
use eb_reader::HostReader;
use eb_session::{Session, Slave};
use sdb_walk::{Tree, WalkFault, discover};
use soc_bus::{Bus, Local, Unkept};
use soc_desc::Description;
use std::alloc::Global;
use wb_signals::Master;

// All widths of addresses, and a port of 32 bits.
const WIDTHS: Widths = Widths {
    addresses: 15,
    ports: 4,
};

/// Opens a new link, reads the address of the root table, and walks from there. Gives the link back, as the last read
/// left it, with what discovery came to.
///
/// `NoMemory` comes where the host could not be opened, or had no answer for the root table's address.
pub fn tour_over<M: Master + Drop>(
    alloc: Global,
    link: Loopback<M>,
) -> Result<(Result<Tree, WalkFault<HostFault>>, Loopback<M>), NoMemory>
    requires new { link ≡ new_loopback link.session link.master }
    requires made { (M.cycles link.master).made ≡ [] }
    requires bus { link.session.slave.bus ≡ W32 }
    ensures tours { IfOk result (λ t. Tours M.cycles link t.1 t.0) }
    ensures identity { IfOk result (λ t. M.identity t.1.master ≡ M.identity link.master) }
{
    let mut host = match Host::open(alloc, link, WIDTHS) {
        Ok(host) => host,
        Err(_) => return Err(NoMemory),
    };
    let root = match host.root() {
        Ok(root) => root,
        Err(_) => return Err(NoMemory),
    };
    let mut reader = HostReader::new(host);
    let found = discover(alloc, &mut reader, root);
    let link = reader.into_host().into_link();
    // Its session is on its course.
    let _ = link.session();
    Ok((found, link))
}

// The slave whose root table stands at an address.
fn slave_at(root: u64) -> Slave
    ensures slave { result ≡ record { bus = W32; root = root } }
    ensures low { root < 2 ^ 64 }
{
    let bus = Width::W32;
    Slave { bus, root }
}

// What discovery came to on a port of a description's bus.
fn found_on(
    alloc: Global,
    description: &Description,
) -> Result<Result<Tree, WalkFault<HostFault>>, NoMemory>
    requires accepted { IsAccepted description.now }
    ensures found { IfOk result (FindsUnlessStopped (tree_of description.now)) }
{
    let mut bus = Bus::build(alloc, Unkept::new(), description)?;
    let session = Session::new(alloc, slave_at(description.bus.sdb))?;
    let port = Local::new(alloc, &mut bus, 0);
    let (found, link) = tour_over(alloc, Loopback::new(alloc, session, port))?;
    link.master().entries_are_legal();
    Ok(found)
}

/// The tree of an accepted description, as discovery through a host and a session in memory finds it on a port of the
/// bus that is built from the description.
///
/// A write to the link that failed counts as want of memory.
pub fn tour_described(alloc: Global, description: &Description) -> Result<Tree, NoMemory>
    requires accepted { IsAccepted description.now }
    ensures tree { IfOk result (λ t. t ≡ tree_of description.now) }
{
    match found_on(alloc, description)? {
        Ok(tree) => Ok(tree),
        Err(fault) => Err(no_tree(fault, description)),
    }
}

// Why discovery found no tree: there was no memory for it, or the host had no answer.
fn no_tree(fault: WalkFault<HostFault>, description: &Description) -> NoMemory
    requires stopped { FindsUnlessStopped (tree_of description.now) (Err fault) }
{
    match fault {
        WalkFault::NoMemory => NoMemory,
        WalkFault::Reader(_) => NoMemory,
        WalkFault::BusError(_) => unreachable!(),
        WalkFault::Record(..) => unreachable!(),
        WalkFault::WrongPlace(_) => unreachable!(),
        WalkFault::TooMany(_) => unreachable!(),
        WalkFault::OutsideParent(_) => unreachable!(),
        WalkFault::TooDeep(_) => unreachable!(),
    }
}
