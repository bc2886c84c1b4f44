ghost use Rattle.std.specs.Prelude.{◌≡◌, map, IfOk};
ghost use Rattle.wc_irc.specs.Dates.{moment_of, dated_what, dated, dated_acts};
ghost use Rattle.wc_irc.specs.ServersSeen.{seen};

use crate::act::Act;
use crate::state::State;
use std::alloc::Global;
use wc_irc_texts::{Moment, tag_time};
use wc_ircmsg::Message;
use wc_model::What;
use wc_text::{Items, NoMemory};

/// The moment that the server tells of a message, where it tells moments.
pub(crate) fn moment_of(state: &State, m: &Message) -> Option<Moment>
    ensures { result ≡ moment_of (seen state.now) m.now }
{
    if state.has_capability(b"server-time") {
        tag_time(m.tags.as_slice())
    } else {
        None
    }
}

fn dated_what(moment: Moment, what: What) -> What
    ensures { result ≡ dated_what moment what }
{
    match what {
        What::Print(mut line) => {
            line.date = moment.seconds;
            line.usec = moment.microseconds;
            What::Print(line)
        }
        other => other,
    }
}

/// The same act, where a line that it prints has this moment.
fn dated(moment: Moment, act: Act) -> Act
    ensures { result ≡ dated moment act }
{
    match act {
        Act::On { full_name, what } => Act::On {
            full_name,
            what: dated_what(moment, what),
        },
        other => other,
    }
}

fn dated_all(alloc: Global, moment: Moment, acts: Items<Act>) -> Result<Items<Act>, NoMemory>
    ensures { IfOk result (λ made. made ≡ map (dated moment) acts) }
{
    let mut made = Items::new(alloc);
    for act in acts.into_vec() {
        made.push(dated(moment, act))?;
    }
    Ok(made)
}

/// The same acts, where lines that they print have the moment that is told.
pub(crate) fn dated_acts(
    alloc: Global,
    moment: Option<Moment>,
    acts: Items<Act>,
) -> Result<Items<Act>, NoMemory>
    ensures { IfOk result (λ made. made ≡ dated_acts moment acts) }
{
    match moment {
        Some(moment) => dated_all(alloc, moment, acts),
        None => Ok(acts),
    }
}
