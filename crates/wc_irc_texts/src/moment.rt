ghost use Rattle.std.specs.Char.{is_ascii_digit};
ghost use Rattle.std.specs.List.{list_all};
ghost use Rattle.std.specs.Option.{option_copied};
ghost use Rattle.std.specs.Prelude.{◌≡◌, ◌≤◌, ◌-◌, ◌*◌, slice_get};
ghost use Rattle.wc_irc_texts.specs.Moments.{is_leap, days_of_years, is_short, february, month_days};
ghost use Rattle.wc_irc_texts.specs.Moments.{days_before, is_date, day_number, is_clock};
ghost use Rattle.wc_irc_texts.specs.Moments.{second_number, digit_of, two_at, year_at, seconds_of};
ghost use Rattle.wc_irc_texts.specs.Moments.{fits, after_form, microseconds_of, is_fraction};
ghost use Rattle.wc_irc_texts.specs.Moments.{if_ended, fraction_in, fraction_of, moment_at};
ghost use Rattle.wc_irc_texts.specs.Moments.{read_time};

use wc_text::split_once;

/// A moment after the first second of 1970, in UTC.
#[derive(Clone, Copy)]
pub struct Moment {
    /// Since 1970.
    pub seconds: u64,
    pub microseconds: u32,
}

/// What a text begins with up to its seconds, where each 0 stands for a digit.
const FORM: &[u8] = b"0000-00-00T00:00:00";

/// The first year.
const FIRST: u32 = 1970;

/// The leap years before the first year.
const LEAPS_BEFORE: u32 = 477;

/// The most digits of a fraction.
const MOST_DIGITS: usize = 9;

// ---- the calendar

fn is_leap(year: u32) -> bool
    ensures { result ≡ is_leap year }
{
    year % 4 == 0 && (year % 100 != 0 || year % 400 == 0)
}

/// The days from the beginning of 1970 to that of a year, by the leap years before it.
#[tactic(auto, using(crate::proofs::MomentLemmas::leaps))]
fn days_before_year(year: u32) -> u32
    requires first { 1970 ≤ year }
    requires last { year ≤ 9999 }
    ensures days { result ≡ days_of_years (year - 1970) }
    ensures few { result ≤ 2932897 }
{
    let last = year - 1;
    let leaps = last / 4 - last / 100 + last / 400 - LEAPS_BEFORE;
    (year - FIRST) * 365 + leaps
}

fn is_short(month: u32) -> bool
    ensures { result ≡ is_short month }
{
    month == 4 || month == 6 || month == 9 || month == 11
}

fn february(year: u32) -> u32
    ensures days { result ≡ february year }
    ensures few { result ≤ 31 }
{
    if is_leap(year) { 29 } else { 28 }
}

/// The days of a month, which are 0 where there is no such month.
fn month_days(year: u32, month: u32) -> u32
    ensures days { result ≡ month_days year month }
    ensures few { result ≤ 31 }
{
    if month == 2 {
        february(year)
    } else if is_short(month) {
        30
    } else if 0 < month && month <= 12 {
        31
    } else {
        0
    }
}

/// The days of a year before one of its months.
fn days_before(year: u32, month: u32) -> u32
    requires { month ≤ 99 }
    ensures days { result ≡ days_before year month }
    ensures few { result ≤ 31 * month }
{
    let mut days = 0;
    let mut earlier = 0;
    while earlier < month {
        days += month_days(year, earlier);
        earlier += 1;
    }
    days
}

fn is_date(year: u32, month: u32, day: u32) -> bool
    ensures { result ≡ is_date year month day }
{
    FIRST <= year && 0 < day && day <= month_days(year, month)
}

/// The days from 1970-01-01 to a date.
fn day_number(year: u32, month: u32, day: u32) -> u32
    requires first { 1970 ≤ year }
    requires last { year ≤ 9999 }
    requires month { month ≤ 99 }
    requires day { day ≤ 99 }
    ensures days { result ≡ day_number year month day }
    ensures few { result ≤ 3000000 }
{
    days_before_year(year) + days_before(year, month) + day.saturating_sub(1)
}

fn is_clock(hour: u32, minute: u32, second: u32) -> bool
    ensures { result ≡ is_clock hour minute second }
{
    hour < 24 && minute < 60 && second <= 60
}

fn second_number(days: u32, hour: u32, minute: u32, second: u32) -> u64
    requires days { days ≤ 3000000 }
    requires hour { hour ≤ 99 }
    requires minute { minute ≤ 99 }
    requires second { second ≤ 99 }
    ensures { result ≡ second_number days hour minute second }
{
    let hours = u64::from(days) * 24 + u64::from(hour);
    (hours * 60 + u64::from(minute)) * 60 + u64::from(second)
}

// ---- texts

/// The digit at a place, or 0 where none is there.
fn digit_at(text: &[u8], place: usize) -> u32
    ensures digit { result ≡ digit_of (slice_get text.now place) }
    ensures small { result ≤ 9 }
{
    match text.get(place) {
        Some(byte) if byte.is_ascii_digit() => u32::from(*byte - b'0'),
        _ => 0,
    }
}

/// The number of two digits, of which one that is not there counts as 0.
fn two_at(text: &[u8], place: usize) -> u32
    requires { place ≤ 99 }
    ensures number { result ≡ two_at place text.now }
    ensures small { result ≤ 99 }
{
    digit_at(text, place) * 10 + digit_at(text, place + 1)
}

fn year_at(text: &[u8]) -> u32
    ensures number { result ≡ year_at text.now }
    ensures small { result ≤ 9999 }
{
    two_at(text, 0) * 100 + two_at(text, 2)
}

/// The seconds since 1970 of a text that begins in the form.
fn seconds_of(text: &[u8]) -> Option<u64>
    ensures { result ≡ seconds_of text.now }
{
    let (year, month, day) = (year_at(text), two_at(text, 5), two_at(text, 8));
    let (hour, minute, second) = (two_at(text, 11), two_at(text, 14), two_at(text, 17));
    if !is_date(year, month, day) || !is_clock(hour, minute, second) {
        return None;
    }
    let days = day_number(year, month, day);
    Some(second_number(days, hour, minute, second))
}

fn fits(sign: u8, byte: u8) -> bool
    ensures { result ≡ fits sign byte }
{
    if sign == b'0' {
        byte.is_ascii_digit()
    } else {
        byte == sign
    }
}

/// What comes after these signs, where the text begins so.
fn after_form<'a>(signs: &[u8], text: &'a [u8]) -> Option<&'a [u8]>
    ensures { option_copied result ≡ after_form signs.now text.now }
{
    let mut signs = signs;
    let mut text = text;
    while let Some((sign, others)) = signs.split_first() {
        let (byte, following) = text.split_first()?;
        if !fits(*sign, *byte) {
            return None;
        }
        signs = others;
        text = following;
    }
    Some(text)
}

/// The microseconds of a fraction with these digits.
fn microseconds_of(digits: &[u8]) -> u32
    ensures { result ≡ microseconds_of digits.now }
{
    (two_at(digits, 0) * 100 + two_at(digits, 2)) * 100 + two_at(digits, 4)
}

fn are_digits(text: &[u8]) -> bool
    ensures { result ≡ list_all is_ascii_digit text.now }
{
    text.iter().all(|byte| byte.is_ascii_digit())
}

fn is_fraction(digits: &[u8]) -> bool
    ensures { result ≡ is_fraction digits.now }
{
    !digits.is_empty() && digits.len() <= MOST_DIGITS && are_digits(digits)
}

fn fraction_in(digits: &[u8]) -> Option<u32>
    ensures { result ≡ fraction_in digits.now }
{
    if is_fraction(digits) {
        Some(microseconds_of(digits))
    } else {
        None
    }
}

/// The fraction, where nothing comes after the end.
fn if_ended(rest: Option<&[u8]>, fraction: Option<u32>) -> Option<u32>
    ensures { result ≡ if_ended (option_copied rest.entry) fraction }
{
    match rest {
        Some([]) => fraction,
        _ => None,
    }
}

/// The microseconds that come after the seconds, and the end.
fn fraction_of(text: &[u8]) -> Option<u32>
    ensures { result ≡ fraction_of text.now }
{
    let (first, others) = text.split_first()?;
    if *first == b'Z' {
        return if_ended(Some(others), Some(0));
    }
    if *first != b'.' {
        return None;
    }
    let (digits, rest) = split_once(others, b'Z');
    if_ended(rest, fraction_in(digits))
}

fn moment_at(seconds: u64, microseconds: u32) -> Option<Moment>
    ensures { result ≡ moment_at seconds microseconds }
{
    if seconds == 0 {
        return None;
    }
    Some(Moment {
        seconds,
        microseconds,
    })
}

/// The moment that a text writes as `YYYY-MM-DDThh:mm:ssZ` in UTC, where a `.` and 1 to 9 digits of
/// a fraction may be before the `Z` (ISO 8601, IRCv3 server-time). A second 60 is the one after the
/// minute. None for another text, and for a moment up to the first second of 1970.
#[tactic(auto, unfolding(crate::specs::Moments::read_time))]
pub fn read_time(text: &[u8]) -> Option<Moment>
    ensures { result ≡ read_time text.now }
{
    let rest = after_form(FORM, text)?;
    let microseconds = fraction_of(rest)?;
    let seconds = seconds_of(text)?;
    moment_at(seconds, microseconds)
}
