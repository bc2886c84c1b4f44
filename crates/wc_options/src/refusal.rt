use wc_text::Text;

/// Why an option is not set or unset.
#[derive(Debug, Drop, thiserror::Error)]
pub enum SetRefused {
    /// There is no option with this name.
    #[error("unknown option")]
    UnknownOption,
    /// The option takes no such value, but one of the range.
    #[error("bad value, allowed: {range}")]
    BadValue { range: Text },
    /// As many servers as are allowed are there.
    #[error("too many servers, at most {limit}")]
    TooManyServers { limit: u32 },
    /// Memory was asked for and not found.
    #[error("out of memory")]
    NoMemory,
}

/// Why a file of options is not read.
#[derive(Clone, Copy, Debug, PartialEq, Eq, thiserror::Error)]
pub enum ConfigRefused {
    /// The first line that is unreadable, counted from 1.
    #[error("configuration line {line}")]
    BadLine { line: u64 },
    /// Memory was asked for and not found.
    #[error("out of memory")]
    NoMemory,
}
