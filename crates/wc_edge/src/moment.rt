ghost use Rattle.std.specs.Prelude.{◌≡◌, ◌≢◌, ◌/◌, ◌-◌, ◌^◌, min, Ok, IsErr};
ghost use Rattle.std.specs.Duration.{as_nanos};
ghost use Rattle.std.specs.IoError.{error_kind};

use std::io::{self, ErrorKind};
use std::rt::Clock;
use std::time::Duration;

/// A time in milliseconds, at most 2^64 - 1.
fn milliseconds(since: Duration) -> u64
    ensures { result ≡ min (as_nanos since / 1_000_000) (2 ^ 64 - 1) }
{
    u64::try_from(since.as_millis()).unwrap_or(u64::MAX)
}

/// The moment of a clock that gave a failure in its place: 0 where it is set to a time before 1970.
fn unread_moment(error: io::Error) -> io::Result<u64>
    ensures before { error_kind error ≡ ErrorKind.InvalidData → result ≡ Ok 0 }
    ensures failed { error_kind error ≢ ErrorKind.InvalidData → IsErr result }
{
    if error.kind() == ErrorKind::InvalidData {
        return Ok(0);
    }
    Err(error)
}

/// The moment of a clock, in milliseconds since 1970; 0 where it is set to a time before.
pub(crate) fn moment<R: Clock>(rt: &R) -> io::Result<u64> {
    match rt.since_1970() {
        Ok(since) => Ok(milliseconds(since)),
        Err(error) => unread_moment(error),
    }
}
