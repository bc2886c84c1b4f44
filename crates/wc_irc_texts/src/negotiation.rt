ghost use Rattle.std.specs.Prelude.{◌≡◌, ◌&&◌, IfOk, OnOk, OnErr};
ghost use Rattle.wc_irc_texts.specs.Capabilities.{is_among, unnamed_in};
ghost use Rattle.wc_irc_texts.specs.LoginSteps.{cap_text};
ghost use Rattle.wc_irc_texts.specs.Negotiation.{logs_in, negotiation_of, login_step, listed};
ghost use Rattle.wc_irc_texts.specs.Negotiation.{granted, has_sasl, stage_asking, with_asked};
ghost use Rattle.wc_irc_texts.specs.Negotiation.{stage_granted, with_granted, ended, after_step};
ghost use Rattle.wc_irc_texts.specs.Negotiation.{begun, lost};

use crate::capabilities::{SASL, is_among, named_in, offered_names, unnamed_in, wished_names};
use crate::login_step::{LoginStep, Stage, cap_text, used_step};
use std::alloc::Global;
use wc_ircmsg::Message;
use wc_text::{Items, NoMemory, Text};

/// A login that asks a server for capabilities, and logs in by SASL (IRCv3).
#[derive(Drop)]
pub struct Negotiation {
    /// Whether options ask for any of it.
    pub is_used: bool,
    pub user: Text,
    pub password: Text,
    /// Whether the server is given up where it does not let the client in.
    pub is_strict: bool,
    /// The capabilities that are asked for where the server offers them.
    pub wished: Items<Text>,
    pub stage: Stage,
    /// Those of them that the server offers.
    pub offered: Items<Text>,
    /// Those that it granted and did not take away.
    pub stands: Items<Text>,
}

/// Whether there is a login: neither its name nor its password is empty.
fn logs_in(user: &[u8], password: &[u8]) -> bool
    ensures { result ≡ logs_in user.now password.now }
{
    !user.is_empty() && !password.is_empty()
}

fn stage_asking(names: &[Text]) -> Stage
    ensures { result ≡ stage_asking names.now }
{
    if names.is_empty() {
        Stage::Idle
    } else {
        Stage::Asks
    }
}

/// Whether `sasl` is one of these.
pub fn has_sasl(names: &[Text]) -> bool
    ensures { result ≡ has_sasl names.now }
{
    is_among(SASL, names)
}

fn stage_granted(names: &[Text]) -> Stage
    ensures { result ≡ stage_granted names.now }
{
    if has_sasl(names) {
        Stage::Begins
    } else {
        Stage::Idle
    }
}

impl Negotiation {
    /// One that is not begun, as options have it: the name and the password of SASL, the words that
    /// name capabilities, and what is done where the server does not let the client in, which is
    /// `disconnect` or any other text. Names of capabilities that this program does not read are
    /// passed over.
    #[tactic(auto, unfolding(crate::specs::Negotiation::negotiation_of))]
    pub fn new(
        alloc: Global,
        user: Text,
        password: Text,
        wishes: &[u8],
        at_failure: &[u8],
    ) -> Result<Negotiation, NoMemory>
        ensures { IfOk result (λ negotiation. negotiation
            ≡ negotiation_of user password wishes.now at_failure.now) }
    {
        let has_login = logs_in(user.as_slice(), password.as_slice());
        let wished = wished_names(alloc, has_login, wishes)?;
        Ok(Negotiation {
            is_used: has_login || !wishes.is_empty(),
            user,
            password,
            is_strict: at_failure == b"disconnect".as_slice(),
            wished,
            stage: Stage::Idle,
            offered: Items::new(alloc),
            stands: Items::new(alloc),
        })
    }

    /// What a message is to it.
    #[tactic(auto, unfolding(crate::specs::Negotiation::login_step))]
    pub fn step(&self, m: &Message) -> LoginStep
        ensures { result ≡ login_step self.now m.now }
    {
        if self.is_used {
            used_step(self.stage, self.stands.as_slice(), m)
        } else {
            LoginStep::Foreign
        }
    }

    /// Whether the capability of this name stands.
    pub fn has(&self, name: &[u8]) -> bool
        ensures { result ≡ is_among name.now self.now.stands }
    {
        is_among(name, self.stands.as_slice())
    }

    /// The capabilities that are wished for and offered, also by this line of the list.
    pub fn listed(&self, alloc: Global, m: &Message) -> Result<Items<Text>, NoMemory>
        ensures { IfOk result (λ names. names ≡ listed self.now m.now) }
    {
        let (wished, offered) = (self.wished.as_slice(), self.offered.as_slice());
        offered_names(alloc, wished, offered, cap_text(m))
    }

    /// The capabilities that were asked for and are granted by this message.
    pub fn granted(&self, alloc: Global, m: &Message) -> Result<Items<Text>, NoMemory>
        ensures { IfOk result (λ names. names ≡ granted self.now m.now) }
    {
        named_in(alloc, self.offered.as_slice(), cap_text(m))
    }

    fn left(&self, alloc: Global, m: &Message) -> Result<Items<Text>, NoMemory>
        ensures { IfOk result (λ names. names ≡ unnamed_in self.now.stands (cap_text m.now)) }
    {
        unnamed_in(alloc, self.stands.as_slice(), cap_text(m))
    }

    /// The link begins.
    pub fn begin(&mut self)
        ensures { self.new ≡ begun self.old }
    {
        if self.is_used {
            self.stage = Stage::Lists;
        }
    }

    /// It is over, and what was granted stands.
    pub fn end(&mut self)
        ensures { self.new ≡ ended self.old }
    {
        self.stage = Stage::Idle;
    }

    /// The link is lost.
    pub fn lose(&mut self, alloc: Global)
        ensures { self.new ≡ lost self.old }
    {
        self.stage = Stage::Idle;
        self.offered = Items::new(alloc);
        self.stands = Items::new(alloc);
    }

    fn take_list(&mut self, alloc: Global, m: &Message) -> Result<(), NoMemory>
        ensures after { OnOk result (self.new ≡ record self.old { offered = listed self.old m.now }) }
        ensures unchanged { OnErr result (self.new ≡ self.old) }
    {
        self.offered = self.listed(alloc, m)?;
        Ok(())
    }

    fn take_last(&mut self, alloc: Global, m: &Message) -> Result<(), NoMemory>
        ensures after { OnOk result (self.new ≡ with_asked self.old (listed self.old m.now)) }
        ensures unchanged { OnErr result (self.new ≡ self.old) }
    {
        self.offered = self.listed(alloc, m)?;
        self.stage = stage_asking(self.offered.as_slice());
        Ok(())
    }

    fn take_granted(&mut self, alloc: Global, m: &Message) -> Result<(), NoMemory>
        ensures after { OnOk result (self.new ≡ with_granted self.old (granted self.old m.now)) }
        ensures unchanged { OnErr result (self.new ≡ self.old) }
    {
        self.stands = self.granted(alloc, m)?;
        self.stage = stage_granted(self.stands.as_slice());
        Ok(())
    }

    fn take_away(&mut self, alloc: Global, m: &Message) -> Result<(), NoMemory>
        ensures after { OnOk result (self.new
            ≡ record self.old { stands = unnamed_in self.old.stands (cap_text m.now) }) }
        ensures unchanged { OnErr result (self.new ≡ self.old) }
    {
        self.stands = self.left(alloc, m)?;
        Ok(())
    }

    /// Takes in a message that is this to it. Where memory is refused it stays as it was.
    #[tactic(auto, unfolding(crate::specs::Negotiation::after_step))]
    pub fn take_in(&mut self, alloc: Global, m: &Message, step: LoginStep) -> Result<(), NoMemory>
        ensures after { OnOk result (self.new ≡ after_step self.old m.now step) }
        ensures unchanged { OnErr result (self.new ≡ self.old) }
    {
        match step {
            LoginStep::Foreign | LoginStep::Nothing => Ok(()),
            LoginStep::Lists => self.take_list(alloc, m),
            LoginStep::EndsList => self.take_last(alloc, m),
            LoginStep::Grants => self.take_granted(alloc, m),
            LoginStep::TakesAway => self.take_away(alloc, m),
            LoginStep::AsksProof => {
                self.stage = Stage::Proves;
                Ok(())
            }
            LoginStep::Refuses | LoginStep::Admits | LoginStep::Rejects => {
                self.end();
                Ok(())
            }
        }
    }
}
