//! The options that the core reads by itself.

ghost use Rattle.std.specs.Prelude.{◌≡◌, ◌≤◌, IfSome};
ghost use Rattle.wc_core.specs.Limits.{number_or, most_lines, limit_set, limit_unset};
ghost use Rattle.wc_core.specs.Limits.{client_limit, port_of, first_handle};

use wc_options::{Options, number_in};
use wc_session::option_value;

/// The option of how many lines a buffer holds at most.
const LINES: &[u8] = b"weechat.history.max_buffer_lines_number";

/// The greatest number that it may have, which is its default too.
const GREATEST_LIMIT: u32 = 4096;

/// Where handles are fresh, each millisecond has so many of its own.
const HANDLES_OF_A_MILLISECOND: u64 = 1 << 20;

/// Moments below this one, in milliseconds since 1970, have them: they end in the year 2109.
const MOMENTS: u64 = 1 << 42;

/// The number from 1 to the highest that a value writes, and the default where it writes none.
fn number_or(value: &[u8], highest: u32, default: u32) -> u32
    requires some { 1 ≤ default }
    requires most { default ≤ highest }
    ensures number { result ≡ number_or highest default value.now }
    ensures at_least { 1 ≤ result }
    ensures in_range { result ≤ highest }
{
    match number_in(value, 1, highest) {
        Some(number) => number,
        None => default,
    }
}

/// How many lines a buffer holds at most by `weechat.history.max_buffer_lines_number`.
#[tactic(auto, unfolding(crate::specs::Limits::most_lines))]
pub fn most_lines(options: &Options) -> u32
    ensures number { result ≡ most_lines options.now }
    ensures some { 1 ≤ result }
    ensures most { result ≤ 4096 }
{
    number_or(option_value(options, LINES), GREATEST_LIMIT, GREATEST_LIMIT)
}

/// The limit of lines that an option gets with a value, where it is the option of that and the value
/// may be one.
#[tactic(auto, unfolding(crate::specs::Limits::limit_set))]
pub(crate) fn limit_set(name: &[u8], value: &[u8]) -> Option<u32>
    ensures number { result ≡ limit_set name.now value.now }
    ensures fits { IfSome result (λ limit. (1 ≤ limit) × (limit ≤ 4096)) }
{
    if name == LINES {
        return number_in(value, 1, GREATEST_LIMIT);
    }
    None
}

/// The limit of lines that an option gets with its default, where it is the option of that.
#[tactic(auto, unfolding(crate::specs::Limits::limit_unset))]
pub(crate) fn limit_unset(name: &[u8]) -> Option<u32>
    ensures number { result ≡ limit_unset name.now }
    ensures fits { IfSome result (λ limit. (1 ≤ limit) × (limit ≤ 4096)) }
{
    if name == LINES {
        return Some(GREATEST_LIMIT);
    }
    None
}

/// How many clients are open at most by `relay.network.max_clients`.
#[tactic(auto, unfolding(crate::specs::Limits::client_limit))]
pub fn client_limit(options: &Options) -> u32
    ensures { result ≡ client_limit options.now }
{
    number_or(option_value(options, b"relay.network.max_clients"), 64, 5)
}

/// Where clients are listened for by `relay.port.weechat`.
#[tactic(auto, unfolding(crate::specs::Limits::port_of))]
pub fn port_of(options: &Options) -> u16
    ensures { result ≡ port_of options.now }
{
    number_or(option_value(options, b"relay.port.weechat"), 65535, 9000) as u16
}

/// The handle below which handles are passed over in a run that starts at this moment, in milliseconds
/// since 1970. It is 0 but where `relay.network.handles` is `fresh`.
#[tactic(auto, unfolding(crate::specs::Limits::first_handle))]
pub(crate) fn first_handle(options: &Options, moment: u64) -> u64
    ensures { result ≡ first_handle options.now moment }
{
    if option_value(options, b"relay.network.handles") != b"fresh".as_slice() {
        return 0;
    }
    if moment >= MOMENTS {
        return 0;
    }
    moment * HANDLES_OF_A_MILLISECOND
}
