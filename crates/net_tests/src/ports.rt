//! Ports of this machine.

use eb_io::Opened;
use eb_net::{Net, RealNet};

// Ports of which most are free, and how a peer on this machine dials them.
static PORTS: [(u16, &str); 8] = [
    (28_411, "127.0.0.1:28411"),
    (28_423, "127.0.0.1:28423"),
    (28_439, "127.0.0.1:28439"),
    (28_447, "127.0.0.1:28447"),
    (28_463, "127.0.0.1:28463"),
    (28_477, "127.0.0.1:28477"),
    (28_493, "127.0.0.1:28493"),
    (28_513, "127.0.0.1:28513"),
];

/// Listens at the first of the ports that is free, and says how it is dialled.
pub fn listen(net: &mut RealNet) -> Option<&'static str> {
    for row in &PORTS {
        let (port, address) = *row;
        if net.listen(port) == Opened::Done {
            return Some(address);
        }
    }
    None
}

/// Binds the first of the ports that is free, and says where datagrams reach it.
pub fn bind(net: &mut RealNet) -> Option<&'static str> {
    for row in &PORTS {
        let (port, address) = *row;
        if net.bind(port) == Opened::Done {
            return Some(address);
        }
    }
    None
}
