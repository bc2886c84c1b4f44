ghost use Rattle.std.specs.Prelude.{◌≡◌, IfOk};
ghost use Rattle.std.specs.Str.{IsUtf8};
ghost use Rattle.wc_irc.specs.CloseActs.{quit_line, disconnect_acts, close_acts};
ghost use Rattle.wc_irc.specs.CommandActs.{acts_of_typed};
ghost use Rattle.wc_irc.specs.CommandLaws.{AreInLine, IsSpelledIn, errand_typed};

use crate::act::Act;
use crate::close_acts::{close_acts, disconnect_acts, quit_line};
use crate::command_acts::on_command;
use crate::server::Server;
use std::alloc::Global;
use wc_buffers::Buffers;
use wc_text::{Handle, Items, NoMemory};

impl Server {
    /// What follows of a text that is typed into a buffer. None exactly where the text is empty or
    /// another command, or makes, deletes, connects or disconnects a server.
    ///
    /// The buffer is this server's where its variable `server` is this server's name. Its variable
    /// `type` tells whether it is that of a channel or of a nick, and its variable `channel` which.
    /// CR, LF and NUL are taken out of the text before it is read. A command is refused, by a line
    /// of the core's buffer, first as `wrong arguments: /x`, then as `irc: no channel here` where it
    /// is about a channel or a nick and the buffer names none that can be sent, and then as
    /// `irc: not connected` where the buffer is not this server's or the link does not stand. A text
    /// that is no command is refused as `no text here` on a buffer of another kind. `/part` is about
    /// the channel that its first word names, where that is joined, and `/mode` about that of the
    /// buffer, where its first word begins with `+` or `-`.
    ///
    /// What is sent by PRIVMSG, other than by `/quote`, is printed from the own nick as well. A text
    /// of PRIVMSG, NOTICE or ACTION that would reach others in a line of more than 510 bytes is
    /// sent in parts, and each part is printed. Last it is refused as `irc: too long: COMMAND`
    /// where fewer than four bytes are left for a text, or where another line of more is to be sent.
    pub fn on_command(
        &self,
        alloc: Global,
        buffers: &Buffers,
        buffer: Handle,
        text: &[u8],
    ) -> Result<Option<Items<Act>>, NoMemory>
        requires { IsUtf8 text.now }
        ensures acts { IfOk result (λ acts. acts
            ≡ acts_of_typed buffers.now self.now buffer text.now) }

        // No line that is sent has CR, LF or NUL, and that of each message is read as the same one.
        ensures one_line { IfOk result AreInLine }
        ensures spelled { IsSpelledIn (errand_typed buffers.now self.now buffer text.now) }
    {
        on_command(&self.state, alloc, buffers, buffer, text)
    }

    /// What is said before this buffer is closed: a PART, where it is that of a joined channel.
    pub fn before_close(
        &self,
        alloc: Global,
        buffers: &Buffers,
        buffer: Handle,
    ) -> Result<Items<Act>, NoMemory>
        ensures { IfOk result (λ acts. acts ≡ close_acts buffers.now self.now buffer) }
    {
        close_acts(alloc, buffers, &self.state, buffer)
    }

    /// What is said as the program ends: QUIT, where the link stands.
    pub fn before_quit(&self, alloc: Global) -> Result<Items<Act>, NoMemory>
        ensures { IfOk result (λ acts. acts ≡ quit_line self.now) }
    {
        quit_line(alloc, &self.state)
    }

    /// What follows of `/disconnect`: QUIT, where the link stands, and then the loss of the server.
    pub fn on_disconnect(&self, alloc: Global) -> Result<Items<Act>, NoMemory>
        ensures { IfOk result (λ acts. acts ≡ disconnect_acts self.now) }
    {
        disconnect_acts(alloc, &self.state)
    }
}
