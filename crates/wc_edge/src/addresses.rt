ghost use Rattle.std.specs.Prelude.{◌≡◌, ◌∷◌, []};
ghost use Rattle.std.specs.Net.Addr.{ipv4_octets, IsIpv4OfBits, IsV4And};
ghost use Rattle.std.specs.Net.Socket.{socket_ip, socket_port};

use std::net::{Ipv4Addr, SocketAddr};
use wc_text::Address;

/// The address of a listener at this port, which nobody reaches from another computer: 127.0.0.1.
pub(crate) fn local_address(port: u16) -> SocketAddr
    ensures ip { IsV4And (socket_ip result) (λ ip. ipv4_octets ip ≡ 127 ∷ 0 ∷ 0 ∷ 1 ∷ []) }
    ensures port { socket_port result ≡ port }
{
    SocketAddr::from((Ipv4Addr::LOCALHOST, port))
}

/// The address that a connection is to go to.
pub(crate) fn far_address(to: Address) -> SocketAddr
    ensures ip { IsV4And (socket_ip result) (λ ip. IsIpv4OfBits ip to.ip) }
    ensures port { socket_port result ≡ to.port }
{
    SocketAddr::from((Ipv4Addr::from(to.ip), to.port))
}
