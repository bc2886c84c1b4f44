ghost use Rattle.std.specs.Prelude.{◌≡◌, option_map, find};
ghost use Rattle.wc_irc_words.specs.Everyday.{everyday_named};
ghost use Rattle.wc_irc_words.specs.TypedSeen.{name_of, letter_of, is_name, all_words, word_named};
ghost use Rattle.wc_irc_words.specs.declared.command_word.CommandWord.TheVariants as words;

use crate::everyday::Everyday;

/// The name of a command that speaks to servers.
#[derive(Clone, Copy, PartialEq, Eq)]
pub enum CommandWord {
    Join,
    Part,
    Msg,
    Notice,
    Query,
    Me,
    Nick,
    Topic,
    Kick,
    Mode,
    Names,
    Quote,
    Server,
    Connect,
    Disconnect,
    /// One of the everyday commands.
    Everyday(Everyday),
}

impl CommandWord {
    const ALL: [CommandWord; 15] = [
        CommandWord::Join,
        CommandWord::Part,
        CommandWord::Msg,
        CommandWord::Notice,
        CommandWord::Query,
        CommandWord::Me,
        CommandWord::Nick,
        CommandWord::Topic,
        CommandWord::Kick,
        CommandWord::Mode,
        CommandWord::Names,
        CommandWord::Quote,
        CommandWord::Server,
        CommandWord::Connect,
        CommandWord::Disconnect,
    ];

    fn name(self) -> &'static [u8]
        ensures { result.now ≡ name_of self }
    {
        match self {
            CommandWord::Join => b"join",
            CommandWord::Part => b"part",
            CommandWord::Msg => b"msg",
            CommandWord::Notice => b"notice",
            CommandWord::Query => b"query",
            CommandWord::Me => b"me",
            CommandWord::Nick => b"nick",
            CommandWord::Topic => b"topic",
            CommandWord::Kick => b"kick",
            CommandWord::Mode => b"mode",
            CommandWord::Names => b"names",
            CommandWord::Quote => b"quote",
            CommandWord::Server => b"server",
            CommandWord::Connect => b"connect",
            CommandWord::Disconnect => b"disconnect",
            CommandWord::Everyday(word) => word.name(),
        }
    }

    /// The letter by which it is known as well, or else its name.
    fn letter(self) -> &'static [u8]
        ensures { result.now ≡ letter_of self }
    {
        match self {
            CommandWord::Join => b"j",
            CommandWord::Msg => b"m",
            CommandWord::Query => b"q",
            CommandWord::Kick => b"k",
            CommandWord::Names => b"n",
            _ => self.name(),
        }
    }

    fn is_name(self, text: &[u8]) -> bool
        ensures { result ≡ is_name text.now self }
    {
        text.eq_ignore_ascii_case(self.name()) || text.eq_ignore_ascii_case(self.letter())
    }

    /// The command that is written so, in letters of any case.
    pub fn named(text: &[u8]) -> Option<CommandWord>
        ensures { result ≡ word_named text.now }
    {
        match CommandWord::find(text) {
            Some(word) => Some(word),
            None => CommandWord::everyday(text),
        }
    }

    fn find(text: &[u8]) -> Option<CommandWord>
        ensures { result ≡ find (is_name text.now) all_words }
    {
        CommandWord::ALL
            .iter()
            .copied()
            .find(|word| word.is_name(text))
    }

    fn everyday(text: &[u8]) -> Option<CommandWord>
        ensures { result ≡ option_map (λ word. words.Everyday word) (everyday_named text.now) }
    {
        match Everyday::named(text) {
            Some(word) => Some(CommandWord::Everyday(word)),
            None => None,
        }
    }
}
