//! What the first bytes of a client tell.
ghost use Rattle.std.specs.Prelude.{◌≡◌, ◌++◌, true};
ghost use Rattle.wc_framing.specs.Opening.{may_open, opening_of};

/// How a head of HTTP begins that may ask for a WebSocket.
const MARK: &[u8] = b"GET ";

/// What is known of a client by its first bytes.
#[derive(Clone, Copy, Debug, PartialEq, Eq)]
pub enum Opening {
    /// They are too few to tell.
    Undecided,
    /// They are text as they come.
    Plain,
    /// They begin a head that may ask for a WebSocket.
    Socket,
}

/// What a piece tells, after bytes that were too few to tell.
pub fn opening_of(held: &[u8], piece: &[u8]) -> Opening
    ensures { may_open held.now ≡ true → result ≡ opening_of (held.now ++ piece.now) }
{
    let wanted = MARK.get(held.len()..).unwrap_or(&[]);
    if piece.starts_with(wanted) {
        return Opening::Socket;
    }
    if wanted.starts_with(piece) {
        return Opening::Undecided;
    }
    Opening::Plain
}
