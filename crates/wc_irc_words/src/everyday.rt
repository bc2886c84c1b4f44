ghost use Rattle.std.specs.Prelude.{◌≡◌, ◌++◌, ◌∷◌, List, ℕ, Some, find};
ghost use Rattle.wc_text.specs.Splits.{past};
ghost use Rattle.wc_irc_words.specs.Everyday.{everyday_name, everyday_command, form_of};
ghost use Rattle.wc_irc_words.specs.Everyday.{is_everyday, all_everyday, everyday_named};
ghost use Rattle.wc_irc_words.specs.Typed.{asked_of, Bids};

/// An everyday command. It comes to the line of its form.
#[derive(Clone, Copy, PartialEq, Eq)]
pub enum Everyday {
    Whois,
    Whowas,
    Who,
    List,
    Away,
    Invite,
    Op,
    Deop,
    Voice,
    Devoice,
    Halfop,
    Dehalfop,
    Ban,
    Unban,
    Kickban,
    Ctcp,
    Ping,
    Motd,
    Cycle,
    Oper,
    Knock,
    Time,
    Version,
    Stats,
}

/// What comes after the name of an everyday command, and which line it makes. C is the channel of
/// the buffer.
#[derive(Clone, Copy, PartialEq, Eq)]
pub enum Form {
    /// `[WORDS]`: `COMMAND WORDS`
    Words,
    /// `WORDS`: `COMMAND WORDS`
    SomeWords,
    /// `[TEXT]`: `COMMAND :TEXT`
    Text,
    /// `WORD [TEXT]`: `COMMAND WORD :TEXT`
    WordAndText,
    /// `NICK [CHANNEL]`: `COMMAND NICK CHANNEL`, or `COMMAND NICK C`
    NickAndChannel,
    /// One to 100 `NAMES`: `MODE C LETTERS NAMES` for each four of them, the letter once for each
    /// name after `+`, which is told here, or `-`
    Modes(bool, u8),
    /// `NICK [REASON]`: `MODE C +b NICK!*@*` and `KICK C NICK REASON`
    BanAndKick,
    /// `TARGET TEXT`: `PRIVMSG TARGET TEXT`, the text between bytes 01
    Request,
    /// `[REASON]`: `PART C REASON` and `JOIN C`
    PartAndJoin,
}

impl Everyday {
    const ALL: [Everyday; 24] = [
        Everyday::Whois,
        Everyday::Whowas,
        Everyday::Who,
        Everyday::List,
        Everyday::Away,
        Everyday::Invite,
        Everyday::Op,
        Everyday::Deop,
        Everyday::Voice,
        Everyday::Devoice,
        Everyday::Halfop,
        Everyday::Dehalfop,
        Everyday::Ban,
        Everyday::Unban,
        Everyday::Kickban,
        Everyday::Ctcp,
        Everyday::Ping,
        Everyday::Motd,
        Everyday::Cycle,
        Everyday::Oper,
        Everyday::Knock,
        Everyday::Time,
        Everyday::Version,
        Everyday::Stats,
    ];

    /// The name that is typed after `/`. With a blank and a text after it, it asks for this
    /// command with that text.
    #[tactic(auto, using(crate::proofs::EverydayLemmas::everyday_typed))]
    pub fn name(self) -> &'static [u8]
        ensures name { result.now ≡ everyday_name self }
        ensures typed { (text : List ℕ) →
            asked_of (47 ∷ (everyday_name self ++ 32 ∷ text)) ≡ Some (Bids self (past 32 text)) }
    {
        self.name_text()
    }

    fn name_text(self) -> &'static [u8]
        ensures { result.now ≡ everyday_name self }
    {
        match self {
            Everyday::Whois => b"whois",
            Everyday::Whowas => b"whowas",
            Everyday::Who => b"who",
            Everyday::List => b"list",
            Everyday::Away => b"away",
            Everyday::Invite => b"invite",
            Everyday::Op => b"op",
            Everyday::Deop => b"deop",
            Everyday::Voice => b"voice",
            Everyday::Devoice => b"devoice",
            Everyday::Halfop => b"halfop",
            Everyday::Dehalfop => b"dehalfop",
            Everyday::Ban => b"ban",
            Everyday::Unban => b"unban",
            Everyday::Kickban => b"kickban",
            Everyday::Ctcp => b"ctcp",
            Everyday::Ping => b"ping",
            Everyday::Motd => b"motd",
            Everyday::Cycle => b"cycle",
            Everyday::Oper => b"oper",
            Everyday::Knock => b"knock",
            Everyday::Time => b"time",
            Everyday::Version => b"version",
            Everyday::Stats => b"stats",
        }
    }

    /// The command of its line (RFC 2812), where its form has one of its own.
    pub fn command(self) -> &'static [u8]
        ensures { result.now ≡ everyday_command self }
    {
        match self {
            Everyday::Whois => b"WHOIS",
            Everyday::Whowas => b"WHOWAS",
            Everyday::Who => b"WHO",
            Everyday::List => b"LIST",
            Everyday::Away => b"AWAY",
            Everyday::Invite => b"INVITE",
            Everyday::Ping => b"PING",
            Everyday::Motd => b"MOTD",
            Everyday::Oper => b"OPER",
            Everyday::Knock => b"KNOCK",
            Everyday::Time => b"TIME",
            Everyday::Version => b"VERSION",
            Everyday::Stats => b"STATS",
            Everyday::Kickban => b"KICK",
            Everyday::Ctcp => b"PRIVMSG",
            Everyday::Cycle => b"JOIN",
            Everyday::Op
            | Everyday::Deop
            | Everyday::Voice
            | Everyday::Devoice
            | Everyday::Halfop
            | Everyday::Dehalfop
            | Everyday::Ban
            | Everyday::Unban => b"MODE",
        }
    }

    /// What comes after its name, and which line it makes.
    pub fn form(self) -> Form
        ensures { result ≡ form_of self }
    {
        match self {
            Everyday::Whois | Everyday::Whowas | Everyday::Ping | Everyday::Oper => Form::SomeWords,
            Everyday::Who
            | Everyday::List
            | Everyday::Motd
            | Everyday::Time
            | Everyday::Version
            | Everyday::Stats => Form::Words,
            Everyday::Away => Form::Text,
            Everyday::Knock => Form::WordAndText,
            Everyday::Invite => Form::NickAndChannel,
            Everyday::Op => Form::Modes(true, b'o'),
            Everyday::Deop => Form::Modes(false, b'o'),
            Everyday::Voice => Form::Modes(true, b'v'),
            Everyday::Devoice => Form::Modes(false, b'v'),
            Everyday::Halfop => Form::Modes(true, b'h'),
            Everyday::Dehalfop => Form::Modes(false, b'h'),
            Everyday::Ban => Form::Modes(true, b'b'),
            Everyday::Unban => Form::Modes(false, b'b'),
            Everyday::Kickban => Form::BanAndKick,
            Everyday::Ctcp => Form::Request,
            Everyday::Cycle => Form::PartAndJoin,
        }
    }

    fn is_named(self, text: &[u8]) -> bool
        ensures { result ≡ is_everyday text.now self }
    {
        text.eq_ignore_ascii_case(self.name_text())
    }

    fn find(text: &[u8]) -> Option<Everyday>
        ensures { result ≡ find (is_everyday text.now) all_everyday }
    {
        Everyday::ALL
            .iter()
            .copied()
            .find(|word| word.is_named(text))
    }

    /// The command that is written so, in letters of any case. `/who` is known as `/w` too.
    pub(crate) fn named(text: &[u8]) -> Option<Everyday>
        ensures { result ≡ everyday_named text.now }
    {
        if text.eq_ignore_ascii_case(b"w") {
            return Some(Everyday::Who);
        }
        Everyday::find(text)
    }
}
