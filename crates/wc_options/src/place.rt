ghost use Rattle.std.specs.Prelude.{◌≡◌, ◌<◌, ◌==◌, option_map, IfSome};
ghost use Rattle.std.specs.List.{list_all};
ghost use Rattle.wc_options.specs.Names.{is_server_byte, is_server_name, located};
ghost use Rattle.wc_options.specs.Names.{located_of_server, row_of_located, IsInTable, IsNamed};
ghost use Rattle.wc_options.specs.Place.{located_of};
ghost use Rattle.wc_options.specs.Table.{row_of};

use crate::file::part_at;
use crate::table::{Row, global_place, global_row, server_place, server_row};

/// The option that a name names.
#[derive(Clone, Copy)]
pub(crate) enum Place<'a> {
    /// An option of the program, by its place in the table.
    Global(usize),
    /// An option of a server, by the server's name and its place in the table.
    OfServer(&'a [u8], usize),
}

/// What the names of the options of servers begin with.
pub(crate) const SERVER_PREFIX: &[u8] = b"irc.server.";

/// The option that a name names.
#[tactic(auto, using(crate::proofs::TableLemmas::place_in_globals), unfolding(crate::specs::Names::located))]
pub(crate) fn locate(name: &[u8]) -> Option<Place<'_>>
    ensures place { option_map located_of result ≡ located name.now }
    ensures within { IfSome result (λ place. IsInTable (located_of place)) }
    ensures named { IfSome result (λ place. IsNamed (located_of place)) }
{
    match name.strip_prefix(SERVER_PREFIX) {
        Some(rest) => locate_of_server(rest),
        None => {
            let place = global_place(name)?;
            Some(Place::Global(place))
        }
    }
}

/// The option of a server that `NAME.X` names.
#[tactic(auto, using(crate::proofs::TableLemmas::place_in_of_server))]
fn locate_of_server(rest: &[u8]) -> Option<Place<'_>>
    ensures place { option_map located_of result ≡ located_of_server rest.now }
    ensures within { IfSome result (λ place. IsInTable (located_of place)) }
    ensures named { IfSome result (λ place. IsNamed (located_of place)) }
{
    let (server, option) = part_at(rest, b'.');
    if !is_server_name(server) {
        return None;
    }
    let place = server_place(option)?;
    Some(Place::OfServer(server, place))
}

/// The row of an option.
pub(crate) fn row(place: Place<'_>) -> Row
    requires { IsInTable (located_of place) }
    ensures { row_of result ≡ row_of_located (located_of place.entry) }
{
    match place {
        Place::Global(place) => global_row(place),
        Place::OfServer(_, place) => server_row(place),
    }
}

/// Whether a server may have this name: 1 to 32 of `a` to `z`, `0` to `9`, `_` and `-`.
#[tactic(auto, unfolding(crate::specs::Names::is_server_name))]
fn is_server_name(name: &[u8]) -> bool
    ensures { result ≡ is_server_name name.now }
{
    !name.is_empty() && name.len() <= 32 && has_server_bytes(name)
}

fn has_server_bytes(name: &[u8]) -> bool
    ensures { result ≡ list_all is_server_byte name.now }
{
    name.iter().all(|byte| is_server_byte(*byte))
}

fn is_server_byte(byte: u8) -> bool
    ensures { result ≡ is_server_byte byte }
{
    matches!(byte, b'a'..=b'z' | b'0'..=b'9' | b'_' | b'-')
}
