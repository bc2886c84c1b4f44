ghost use Rattle.std.specs.Prelude.{◌≡◌, IfOk};

use crate::no_memory::NoMemory;
use crate::text::Text;
use std::alloc::Global;

/// The name of a buffer, a line, a group or a nick. 0 is the null handle.
#[derive(Clone, Copy, Debug, PartialEq, Eq)]
pub struct Handle(pub u64);

/// The number of a link, from 1 in the order in which links are made.
#[derive(Clone, Copy, Debug, PartialEq, Eq)]
pub struct LinkId(pub u64);

/// A name and its value.
#[derive(Drop)]
pub struct Pair {
    pub name: Text,
    pub value: Text,
}

impl Pair {
    /// The same pair in memory of its own.
    pub fn copy(&self, alloc: Global) -> Result<Pair, NoMemory>
        ensures { IfOk result (λ pair. pair ≡ self.now) }
    {
        let name = self.name.copy(alloc)?;
        let value = self.value.copy(alloc)?;
        Ok(Pair { name, value })
    }
}

/// A link that was accepted, and the random bytes that its login is bound to.
#[derive(Clone, Copy)]
pub struct Arrival {
    pub link: LinkId,
    pub nonce: [u8; 16],
}

/// An IPv4 address, its first number in the highest byte, and a port.
#[derive(Clone, Copy, Debug, PartialEq, Eq)]
pub struct Address {
    pub ip: u32,
    pub port: u16,
}

/// Why a link was closed.
#[derive(Clone, Copy, Debug, PartialEq, Eq)]
pub enum Cause {
    /// The peer ended it.
    Ended,
    /// A read or a write failed.
    Failed,
    /// The client asked to quit.
    Quit,
    /// The login was refused.
    LoginFailed,
    /// Memory was asked for and not found.
    NoMemory,
    /// As many clients as are allowed were open.
    Surplus,
    /// A command disconnected it.
    Disconnected,
    /// Each nick of a server was taken.
    NickTaken,
    /// Its head or its frames were no WebSocket, or a message could not be framed.
    BadSocket,
}
