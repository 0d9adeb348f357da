//! What a server meets.

/// All that a server meets: files by name, and peers by port.
#[derive(Drop)]
pub struct Around<W, N> {
    pub world: W,
    pub net: N,
}
