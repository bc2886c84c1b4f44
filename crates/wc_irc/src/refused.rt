ghost use Rattle.std.specs.Prelude.{◌≡◌};
ghost use Rattle.wc_irc.specs.declared.refused.ServerRefused.TheVariants.{NoMemory as no_memory};

use wc_text::NoMemory;

/// Why a server is not connected.
#[derive(Clone, Copy, Debug, PartialEq, Eq, thiserror::Error)]
pub enum ServerRefused {
    /// It is to be reached by TLS, which there is not.
    #[error("no TLS")]
    TlsOn,
    /// Its option `addresses` is no address.
    #[error("bad address")]
    BadAddress,
    /// Memory was asked for and not found.
    #[error("out of memory")]
    NoMemory,
}

impl From<NoMemory> for ServerRefused {
    ghost from_gives = { λ _ refused. refused ≡ no_memory };

    fn from(_error: NoMemory) -> ServerRefused {
        ServerRefused::NoMemory
    }
}
