/// Why a line of an editing script is outside the grammar of scripts. The reasons are numbered 1 to
/// 6 in this order, and are tried in it.
#[derive(Clone, Copy, Debug, PartialEq, Eq)]
pub enum LineReason {
    UnknownWord,
    WrongCount,
    BadNumber,
    BadText,
    BadHex,
    BadBytes,
}
