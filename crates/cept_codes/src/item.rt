use crate::command::Command;

/// Why bytes are refused. The reasons are numbered 1 to 7 in this order.
#[derive(Clone, Copy, Debug, PartialEq, Eq)]
pub enum Reason {
    UnassignedControl,
    UnknownEscape,
    UnknownCsi,
    UnknownUnit,
    BadParameter,
    Interrupted,
    Truncated,
}

/// What an item says: a command, or that its bytes are refused.
#[derive(Clone, Copy, Debug, PartialEq, Eq)]
pub enum Said {
    Command(Command),
    Refused(Reason),
}

/// One unit of the byte stream: the number of bytes before it, its length in bytes, and what it
/// says.
#[derive(Clone, Copy, Debug, PartialEq, Eq)]
pub struct Item {
    pub at: u64,
    pub len: u8,
    pub what: Said,
}

/// What fills the unused room of a list of items. Nothing is said of it.
impl Default for Item {
    fn default() -> Item {
        Item {
            at: 0,
            len: 0,
            what: Said::Command(Command::Nul),
        }
    }
}
