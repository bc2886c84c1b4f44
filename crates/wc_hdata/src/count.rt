ghost use Rattle.std.specs.Prelude.{◌≡◌};
ghost use Rattle.std.specs.Option.{option_copied};
ghost use Rattle.wc_hdata.specs.Answers.{count_of, count_inside, count_of_number};

use wc_text::read_i64;

/// How many elements a step gives, and in which direction.
#[derive(Clone, Copy, Debug, PartialEq, Eq)]
pub enum Count {
    /// Nothing is written: the element alone.
    One,
    /// `(*)`, the element and all after it.
    All,
    /// `(n)`, the element and those after it, so many in all at most.
    Forward(u32),
    /// `(-n)`, the element and those before it, so many in all at most.
    Backward(u32),
}

/// The greatest number that a count writes, that of a C `int`.
const MOST: u32 = 0x7FFF_FFFF;

/// The count that is in parentheses, given what follows the opening one. Where none opened the
/// count is one.
///
/// Zeros in front of a number are read over, as the `strtol` of WeeChat does.
pub fn read_count(written: Option<&[u8]>) -> Option<Count>
    ensures { result ≡ count_of (option_copied written.entry) }
{
    match written {
        None => Some(Count::One),
        Some(written) => count_inside(written.strip_suffix(b")")?),
    }
}

/// The count that a text inside parentheses writes.
#[tactic(auto, unfolding(crate::specs::Answers::count_inside))]
fn count_inside(inner: &[u8]) -> Option<Count>
    ensures { result ≡ count_inside inner.now }
{
    match inner {
        b"*" => Some(Count::All),
        _ => count_of_number(read_i64(inner)?),
    }
}

/// The count by a number. None where it is 0, or more than `MOST` in either direction.
fn count_of_number(number: i64) -> Option<Count>
    ensures { result ≡ count_of_number number }
{
    let size = u32::try_from(number.unsigned_abs()).ok()?;
    if size == 0 || size > MOST {
        return None;
    }
    if number > 0 {
        Some(Count::Forward(size))
    } else {
        Some(Count::Backward(size))
    }
}
