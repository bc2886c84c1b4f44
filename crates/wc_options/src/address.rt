ghost use Rattle.std.specs.Prelude.{◌≡◌, ◌<◌, ◌^◌, IfSome};
ghost use Rattle.wc_options.specs.Address.{address_of, host_of, ipv4_of};

use crate::file::part_at;
use crate::number::number_in;
use wc_text::Address;

/// The address that a text writes: a dotted IPv4 address or `localhost`, `/`, and a port from 1
/// to 65535. Its numbers have no sign and no leading zero. None exactly where it writes none.
#[tactic(auto, unfolding(crate::specs::Address::address_of))]
pub fn read_address(text: &[u8]) -> Option<Address>
    ensures { result ≡ address_of text.now }
{
    let (host, port) = part_at(text, b'/');
    let ip = read_host(host)?;
    let port = number_in(port, 1, 65535)?;
    Some(Address {
        ip,
        port: port as u16,
    })
}

fn read_host(text: &[u8]) -> Option<u32>
    ensures { result ≡ host_of text.now }
{
    if text == b"localhost".as_slice() {
        return Some(0x7f00_0001);
    }
    read_ipv4(text)
}

#[tactic(auto, unfolding(crate::specs::Address::ipv4_of))]
fn read_ipv4(text: &[u8]) -> Option<u32>
    ensures { result ≡ ipv4_of text.now }
{
    let (first, rest) = part_at(text, b'.');
    let (second, last) = part_at(rest, b'.');
    let (third, fourth) = part_at(last, b'.');
    let first = number_in(first, 0, 255)?;
    let second = number_in(second, 0, 255)?;
    let third = number_in(third, 0, 255)?;
    let fourth = number_in(fourth, 0, 255)?;
    Some(((first * 256 + second) * 256 + third) * 256 + fourth)
}
