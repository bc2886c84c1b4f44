ghost use Rattle.std.specs.Prelude.{◌≡◌, ◌<◌, map, length, position, bytes_eq};
ghost use Rattle.wc_options.specs.Table.{globals, of_server, place_in, row_at, row_of};

use crate::kind::Kind;

/// An option: its name, what its values have to be, its value where none is set, and the words that
/// tell a user which values it takes.
#[derive(Clone, Copy)]
pub(crate) struct Row {
    pub(crate) name: &'static [u8],
    pub(crate) kind: Kind,
    pub(crate) default: &'static [u8],
    pub(crate) range: &'static [u8],
}

const LINES: Kind = Kind::Number {
    lowest: 1,
    highest: 4096,
};

const CLIENTS: Kind = Kind::Number {
    lowest: 1,
    highest: 64,
};

const MEGABYTES: Kind = Kind::Number {
    lowest: 0,
    highest: 4096,
};

const PRIVATES: Kind = Kind::Number {
    lowest: 1,
    highest: 256,
};

const PORT: Kind = Kind::Number {
    lowest: 1,
    highest: 65535,
};

/// How many options the program has.
pub(crate) const GLOBAL_COUNT: usize = 19;

/// The options of the program, in the order in which the file has them.
pub(crate) const GLOBALS: [Row; 19] = [
    Row {
        name: b"weechat.history.max_buffer_lines_number",
        kind: LINES,
        default: b"4096",
        range: b"1 to 4096",
    },
    Row {
        name: b"relay.network.password",
        kind: Kind::Text,
        default: b"",
        range: b"text",
    },
    Row {
        name: b"relay.network.password_hash_algo",
        kind: Kind::Text,
        default: b"*",
        range: b"masks joined by commas",
    },
    Row {
        name: b"relay.network.max_clients",
        kind: CLIENTS,
        default: b"5",
        range: b"1 to 64",
    },
    Row {
        name: b"relay.network.max_unsent",
        kind: MEGABYTES,
        default: b"0",
        range: b"0 to 4096",
    },
    Row {
        name: b"relay.network.handles",
        kind: Kind::Text,
        default: b"counted",
        range: b"counted, fresh, read at the start",
    },
    Row {
        name: b"relay.port.weechat",
        kind: PORT,
        default: b"9000",
        range: b"1 to 65535, read at the start",
    },
    Row {
        name: b"irc.look.private_max",
        kind: PRIVATES,
        default: b"256",
        range: b"1 to 256, read at the start",
    },
    Row {
        name: b"irc.server_default.nicks",
        kind: Kind::Filled,
        default: b"weechat",
        range: b"text, not empty",
    },
    Row {
        name: b"irc.server_default.realname",
        kind: Kind::Filled,
        default: b"weechat",
        range: b"text, not empty",
    },
    Row {
        name: b"irc.server_default.username",
        kind: Kind::Word,
        default: b"weechat",
        range: b"one word",
    },
    Row {
        name: b"irc.server_default.password",
        kind: Kind::Text,
        default: b"",
        range: b"text",
    },
    Row {
        name: b"irc.server_default.autojoin",
        kind: Kind::Text,
        default: b"",
        range: b"text",
    },
    Row {
        name: b"irc.server_default.autoconnect",
        kind: Kind::Switch,
        default: b"off",
        range: b"on, off",
    },
    Row {
        name: b"irc.server_default.tls",
        kind: Kind::Switch,
        default: b"on",
        range: b"on, off",
    },
    Row {
        name: b"irc.server_default.sasl_username",
        kind: Kind::Text,
        default: b"",
        range: b"text",
    },
    Row {
        name: b"irc.server_default.sasl_password",
        kind: Kind::Text,
        default: b"",
        range: b"text",
    },
    Row {
        name: b"irc.server_default.sasl_fail",
        kind: Kind::Text,
        default: b"continue",
        range: b"continue, disconnect",
    },
    Row {
        name: b"irc.server_default.capabilities",
        kind: Kind::Text,
        default: b"",
        range: b"words",
    },
];

/// The options that each server has, by the last part of their names, in the order in which the
/// file has them.
pub(crate) const OF_SERVER: [Row; 12] = [
    Row {
        name: b"addresses",
        kind: Kind::Endpoint,
        default: b"",
        range: b"address/port",
    },
    Row {
        name: b"nicks",
        kind: Kind::Filled,
        default: b"weechat",
        range: b"text, not empty",
    },
    Row {
        name: b"username",
        kind: Kind::Word,
        default: b"weechat",
        range: b"one word",
    },
    Row {
        name: b"realname",
        kind: Kind::Filled,
        default: b"weechat",
        range: b"text, not empty",
    },
    Row {
        name: b"password",
        kind: Kind::Text,
        default: b"",
        range: b"text",
    },
    Row {
        name: b"autojoin",
        kind: Kind::Text,
        default: b"",
        range: b"text",
    },
    Row {
        name: b"autoconnect",
        kind: Kind::Switch,
        default: b"off",
        range: b"on, off",
    },
    Row {
        name: b"tls",
        kind: Kind::Switch,
        default: b"on",
        range: b"on, off",
    },
    Row {
        name: b"sasl_username",
        kind: Kind::Text,
        default: b"",
        range: b"text",
    },
    Row {
        name: b"sasl_password",
        kind: Kind::Text,
        default: b"",
        range: b"text",
    },
    Row {
        name: b"sasl_fail",
        kind: Kind::Text,
        default: b"continue",
        range: b"continue, disconnect",
    },
    Row {
        name: b"capabilities",
        kind: Kind::Text,
        default: b"",
        range: b"words",
    },
];

/// The place of an option of the program.
pub(crate) fn global_place(name: &[u8]) -> Option<usize>
    ensures { result ≡ place_in name.now globals }
{
    place_in(name, &GLOBALS)
}

/// The place of an option of a server, by the last part of its name.
pub(crate) fn server_place(name: &[u8]) -> Option<usize>
    ensures { result ≡ place_in name.now of_server }
{
    place_in(name, &OF_SERVER)
}

/// An option of the program.
pub(crate) fn global_row(place: usize) -> Row
    requires { place < 19 }
    ensures { row_of result ≡ row_at globals place }
{
    row_in(&GLOBALS, place)
}

/// An option of a server.
pub(crate) fn server_row(place: usize) -> Row
    requires { place < 12 }
    ensures { row_of result ≡ row_at of_server place }
{
    row_in(&OF_SERVER, place)
}

#[tactic(auto, using(crate::proofs::TableLemmas::table_reads))]
fn row_in(table: &[Row], place: usize) -> Row
    requires { place < length table.now }
    ensures { row_of result ≡ row_at (map row_of table.now) place }
{
    table[place]
}

#[tactic(auto, using(crate::proofs::TableLemmas::table_places))]
fn place_in(name: &[u8], table: &[Row]) -> Option<usize>
    ensures { result ≡ place_in name.now (map row_of table.now) }
{
    row_with_name(name, table)
}

fn row_with_name(name: &[u8], table: &[Row]) -> Option<usize>
    ensures { result ≡ position (λ row. bytes_eq row.name.now name.now) table.now }
{
    table.iter().position(|row| row.name == name)
}
