ghost use Rattle.std.specs.Prelude.{◌≡◌};
ghost use Rattle.std.specs.IoError.{raw_os_error};
ghost use Rattle.wc_edge.specs.Misses.{wants, losses, is_listed, miss_of_number, miss_of};

use std::io;

/// Why a call for the next connection gave none.
#[derive(Clone, Copy, PartialEq, Eq)]
pub(crate) enum Miss {
    /// No connection waits.
    Nobody,
    /// The one that waited is gone, and others may wait.
    Gone,
    /// No file or no memory is left for it, so that it waits on.
    Want,
    /// The listener failed.
    Fault,
}

/// EAGAIN of Linux.
const NOTHING_WAITS: u32 = 11;

/// Whether the system says by this number that no memory or no file is left: ENOMEM, ENFILE, EMFILE
/// and ENOBUFS of Linux.
fn is_want(number: u32) -> bool
    ensures { result ≡ is_listed wants number }
{
    [12, 23, 24, 105].contains(&number)
}

/// Whether the system says by this number that the connection is lost, and not the listener: EPERM,
/// EINTR, ENONET, EPROTO, ENOPROTOOPT, EOPNOTSUPP, ENETDOWN, ENETUNREACH, ECONNABORTED, ECONNRESET,
/// ETIMEDOUT, EHOSTDOWN and EHOSTUNREACH, of which accept(2) of Linux says so.
fn is_loss(number: u32) -> bool
    ensures { result ≡ is_listed losses number }
{
    [1, 4, 64, 71, 92, 95, 100, 101, 103, 104, 110, 112, 113].contains(&number)
}

/// What the system says by this number.
fn miss_of_number(number: u32) -> Miss
    ensures { result ≡ miss_of_number number }
{
    if number == NOTHING_WAITS {
        return Miss::Nobody;
    }
    if is_want(number) {
        return Miss::Want;
    }
    if is_loss(number) {
        return Miss::Gone;
    }
    Miss::Fault
}

/// What a failure says.
pub(crate) fn miss_of(error: &io::Error) -> Miss
    ensures { result ≡ miss_of (raw_os_error error.now) }
{
    match error.raw_os_error() {
        Some(code) => miss_of_number(code.unsigned_abs()),
        None => Miss::Fault,
    }
}
