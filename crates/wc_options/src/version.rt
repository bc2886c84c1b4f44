ghost use Rattle.std.specs.Prelude.{◌≡◌};
ghost use Rattle.wc_options.specs.Version.{told_version, is_in_quotes};

/// The first line of a file that is written, which tells its version.
pub const VERSION_LINE: &[u8] = b"config_version = 2";

/// The first line that a file of version 1 may have.
const OLD_VERSION_LINE: &[u8] = b"config_version = 1";

/// The version of a file, which says how its values are written.
#[derive(Clone, Copy)]
pub(crate) enum Version {
    /// A value is the text as it is.
    One,
    /// A value that begins with a quote is in quotes.
    Two,
}

/// The version that a first line tells.
pub(crate) fn told_version(line: &[u8]) -> Option<Version>
    ensures { result ≡ told_version line.now }
{
    if line == VERSION_LINE {
        return Some(Version::Two);
    }
    if line == OLD_VERSION_LINE {
        return Some(Version::One);
    }
    None
}

/// Whether a value is in quotes.
pub(crate) fn is_in_quotes(version: Version, written: &[u8]) -> bool
    ensures { result ≡ is_in_quotes version written.now }
{
    match version {
        Version::One => false,
        Version::Two => written.starts_with(b"\""),
    }
}
