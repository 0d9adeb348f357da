// The statuses of the program.

/// The status of the program.
#[derive(Clone, Copy, Debug, PartialEq, Eq)]
pub struct Status(pub u8);

impl Status {
    /// The input was read to its end, and all output was written.
    pub const OK: Status = Status(0);

    /// The words are no command.
    pub const USAGE: Status = Status(2);

    /// The description is refused.
    pub const DESCRIPTION: Status = Status(3);

    /// An open or a read failed.
    pub const READ_FAULT: Status = Status(4);

    /// A write to the output failed.
    pub const WRITE_FAULT: Status = Status(5);

    /// The stream has a bad octet.
    pub const MALFORMED: Status = Status(6);

    /// The input ended inside an item.
    pub const TRUNCATED: Status = Status(7);

    /// An address couldn't be dialled, or a door or a post couldn't be made; or an accept failed.
    pub const DOOR: Status = Status(8);

    /// A peer's reply is refused, or it ended before a whole one.
    pub const PEER: Status = Status(9);

    /// The bus answered an access with ERR or RTY.
    pub const BUS_ERROR: Status = Status(10);

    /// The SDB tables break a rule of the walk.
    pub const WALK: Status = Status(11);

    /// The stream has more octets than are read.
    pub const TOO_LONG: Status = Status(12);

    /// There was no memory.
    pub const NO_MEMORY: Status = Status(13);

    /// The script is refused.
    pub const SCRIPT: Status = Status(14);
}
