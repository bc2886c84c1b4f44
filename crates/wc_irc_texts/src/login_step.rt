ghost use Rattle.std.specs.Prelude.{◌≡◌};
ghost use Rattle.wc_irc_texts.specs.LoginSteps.{goes_on, cap_text, list_step, answer_step};
ghost use Rattle.wc_irc_texts.specs.LoginSteps.{cap_step, is_go_on, proof_step, is_rejection};
ghost use Rattle.wc_irc_texts.specs.LoginSteps.{verdict, verdict_step, capability_of};
ghost use Rattle.wc_irc_texts.specs.LoginSteps.{other_step, used_step};

use crate::capabilities::is_among;
use crate::params::param;
use wc_ircmsg::Message;
use wc_text::Text;

/// What a login waits for.
#[derive(Clone, Copy, Debug, PartialEq, Eq)]
pub enum Stage {
    /// Nothing: it is not begun, or it is over.
    Idle,
    /// The list of capabilities.
    Lists,
    /// Whether those that it asked for are granted.
    Asks,
    /// That the server asks who the client is.
    Begins,
    /// Whether the server lets the client in.
    Proves,
}

/// What a message is to a login.
#[derive(Clone, Copy, Debug, PartialEq, Eq)]
pub enum LoginStep {
    /// It is about something else.
    Foreign,
    /// It is about the login and changes nothing.
    Nothing,
    /// A line of the list of capabilities, which goes on.
    Lists,
    /// The last line of it.
    EndsList,
    /// Capabilities are granted.
    Grants,
    /// They are refused.
    Refuses,
    /// Capabilities that stood are taken away.
    TakesAway,
    /// The server asks who the client is.
    AsksProof,
    /// It lets the client in (903).
    Admits,
    /// It does not (902, and 904 to 908).
    Rejects,
}

/// The fewest parameters of a CAP whose list goes on.
const GOING_ON: usize = 4;

// ---- CAP

/// Whether the list of a CAP goes on in another line.
fn goes_on(m: &Message) -> bool
    ensures { result ≡ goes_on m.now }
{
    GOING_ON <= m.params.as_slice().len() && param(m, 2) == b"*".as_slice()
}

/// The words of a CAP.
pub(crate) fn cap_text(m: &Message) -> &[u8]
    ensures { result.now ≡ cap_text m.now }
{
    if goes_on(m) { param(m, 3) } else { param(m, 2) }
}

fn list_step(stage: Stage, m: &Message) -> LoginStep
    ensures { result ≡ list_step stage m.now }
{
    match stage {
        Stage::Lists if goes_on(m) => LoginStep::Lists,
        Stage::Lists => LoginStep::EndsList,
        _ => LoginStep::Nothing,
    }
}

fn answer_step(stage: Stage, answer: LoginStep) -> LoginStep
    ensures { result ≡ answer_step stage answer }
{
    match stage {
        Stage::Asks => answer,
        _ => LoginStep::Nothing,
    }
}

fn cap_step(stage: Stage, m: &Message) -> LoginStep
    ensures { result ≡ cap_step stage m.now }
{
    let word = param(m, 1);
    if word == b"LS".as_slice() {
        return list_step(stage, m);
    }
    if word == b"ACK".as_slice() {
        return answer_step(stage, LoginStep::Grants);
    }
    if word == b"NAK".as_slice() {
        return answer_step(stage, LoginStep::Refuses);
    }
    if word == b"DEL".as_slice() {
        return LoginStep::TakesAway;
    }
    if word == b"NEW".as_slice() {
        return LoginStep::Nothing;
    }
    LoginStep::Foreign
}

// ---- SASL

/// Whether the server waits for the client.
fn is_go_on(m: &Message) -> bool
    ensures { result ≡ is_go_on m.now }
{
    param(m, 0) == b"+".as_slice()
}

fn proof_step(stage: Stage, m: &Message) -> LoginStep
    ensures { result ≡ proof_step stage m.now }
{
    match stage {
        Stage::Begins if is_go_on(m) => LoginStep::AsksProof,
        _ => LoginStep::Nothing,
    }
}

/// Whether a server lets none in by this numeric.
fn is_rejection(command: &[u8]) -> bool
    ensures { result ≡ is_rejection command.now }
{
    command == b"902".as_slice()
        || command == b"904".as_slice()
        || command == b"905".as_slice()
        || command == b"906".as_slice()
        || command == b"907".as_slice()
        || command == b"908".as_slice()
}

fn verdict(command: &[u8]) -> LoginStep
    ensures { result ≡ verdict command.now }
{
    if command == b"903".as_slice() {
        return LoginStep::Admits;
    }
    if is_rejection(command) {
        return LoginStep::Rejects;
    }
    LoginStep::Foreign
}

fn verdict_step(stage: Stage, command: &[u8]) -> LoginStep
    ensures { result ≡ verdict_step stage command.now }
{
    match stage {
        Stage::Begins | Stage::Proves => verdict(command),
        _ => LoginStep::Foreign,
    }
}

// ---- all messages

/// The capability without which no such message comes, or none for another message.
fn capability_of(command: &[u8]) -> &'static [u8]
    ensures { result.now ≡ capability_of command.now }
{
    if command == b"AWAY".as_slice() {
        b"away-notify"
    } else if command == b"ACCOUNT".as_slice() {
        b"account-notify"
    } else if command == b"CHGHOST".as_slice() {
        b"chghost"
    } else if command == b"SETNAME".as_slice() {
        b"setname"
    } else if command == b"TAGMSG".as_slice() {
        b"message-tags"
    } else {
        b""
    }
}

fn other_step(stage: Stage, stands: &[Text], command: &[u8]) -> LoginStep
    ensures { result ≡ other_step stage stands.now command.now }
{
    if is_among(capability_of(command), stands) {
        LoginStep::Nothing
    } else {
        verdict_step(stage, command)
    }
}

/// What a message is to a login at a stage, where these capabilities stand.
pub(crate) fn used_step(stage: Stage, stands: &[Text], m: &Message) -> LoginStep
    ensures { result ≡ used_step stage stands.now m.now }
{
    let command = m.command.as_slice();
    if command == b"CAP".as_slice() {
        return cap_step(stage, m);
    }
    if command == b"AUTHENTICATE".as_slice() {
        return proof_step(stage, m);
    }
    other_step(stage, stands, command)
}
