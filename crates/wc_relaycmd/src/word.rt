ghost use Rattle.std.specs.Prelude.{◌≡◌, Option, Some, None};
ghost use Rattle.wc_relaycmd.specs.Grammar.{name_of, word_named};

/// The word that names a command.
#[derive(Clone, Copy, PartialEq, Eq)]
pub enum Word {
    Handshake,
    Init,
    Hdata,
    Info,
    Infolist,
    Nicklist,
    Input,
    Completion,
    Sync,
    Desync,
    Test,
    Ping,
    Quit,
}

impl Word {
    const ALL: [Word; 13] = [
        Word::Handshake,
        Word::Init,
        Word::Hdata,
        Word::Info,
        Word::Infolist,
        Word::Nicklist,
        Word::Input,
        Word::Completion,
        Word::Sync,
        Word::Desync,
        Word::Test,
        Word::Ping,
        Word::Quit,
    ];

    /// How the command is written.
    fn name(self) -> &'static [u8]
        ensures { result.now ≡ name_of self }
    {
        match self {
            Word::Handshake => b"handshake",
            Word::Init => b"init",
            Word::Hdata => b"hdata",
            Word::Info => b"info",
            Word::Infolist => b"infolist",
            Word::Nicklist => b"nicklist",
            Word::Input => b"input",
            Word::Completion => b"completion",
            Word::Sync => b"sync",
            Word::Desync => b"desync",
            Word::Test => b"test",
            Word::Ping => b"ping",
            Word::Quit => b"quit",
        }
    }

    /// The command of that name, with case kept.
    pub fn named(text: &[u8]) -> Option<Word>
        ensures { result ≡ word_named text.now }
    {
        Word::ALL.iter().copied().find(|word| text == word.name())
    }
}
