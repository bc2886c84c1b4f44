//! Acts, as tables show them.

use crate::sheet::Sheet;
use crate::texts::put_texts;
use wc_buffers::BufferSpec;
use wc_irc::Act;
use wc_model::{LineSpec, What};
use wc_nicklist::Item;
use wc_text::{Cause, Items, NoMemory, Pair, Text};

fn put_pair(out: &mut Sheet, pair: &Pair) {
    out.put_two(" has", pair.name.as_slice(), pair.value.as_slice());
}

/// Writes the date of a line that has one.
fn put_date(out: &mut Sheet, line: &LineSpec) {
    if line.date != 0 {
        let written = write!(out.text, " at {} and {}", line.date, line.usec);
        out.note(written);
    }
}

fn put_line(out: &mut Sheet, line: &LineSpec) {
    out.put_two(" prints", line.prefix.as_slice(), line.message.as_slice());
    out.put(" tags ");
    put_texts(out, line.tags.as_slice());
    let written = write!(out.text, " notify {}", line.notify);
    out.note(written);
    out.put(if line.highlight { " highlight" } else { "" });
    put_date(out, line);
}

fn put_item(out: &mut Sheet, name: &str, group: &Text, item: &Item) {
    out.put_two(name, group.as_slice(), item.name.as_slice());
    out.put_named(" sign", item.prefix.as_slice());
}

fn put_what(out: &mut Sheet, what: &What) {
    match what {
        What::Print(line) => put_line(out, line),
        What::SetVar(pair) => put_pair(out, pair),
        What::Title(title) => out.put_named(" title", title.as_slice()),
        What::Rename { name, .. } => out.put_named(" is called", name.as_slice()),
        What::ShortName(name) => out.put_named(" is short", name.as_slice()),
        What::AddGroup { parent, item } => put_item(out, " gets a group", parent, item),
        What::AddNick { group, item } => put_item(out, " gets a nick", group, item),
        What::RemoveNick(nick) => out.put_named(" loses a nick", nick.as_slice()),
        _ => out.put(" changes"),
    }
}

fn put_open(out: &mut Sheet, spec: &BufferSpec) {
    out.put_two(
        "opens",
        spec.full_name.as_slice(),
        spec.short_name.as_slice(),
    );
    out.put_named(" title", spec.title.as_slice());
    for pair in spec.vars.as_slice() {
        put_pair(out, pair);
    }
}

fn put_on(out: &mut Sheet, full_name: &Text, what: &What) {
    out.put_named("on", full_name.as_slice());
    put_what(out, what);
}

fn put_act(out: &mut Sheet, act: &Act) {
    match act {
        Act::Open(spec) => put_open(out, spec),
        Act::On { full_name, what } => put_on(out, full_name, what),
        Act::Send(line) => out.put_named("sends", line.as_slice()),
        Act::Raise { signal, payload } => {
            out.put_two("raises", signal.as_slice(), payload.as_slice());
        }
        Act::Leave(cause) => put_leave(out, *cause),
    }
}

fn put_leave(out: &mut Sheet, cause: Cause) {
    let written = write!(out.text, "leaves: {cause:?}");
    out.note(written);
}

/// Writes acts, each on a line of its own.
fn put_acts(out: &mut Sheet, acts: &[Act]) {
    for act in acts {
        put_act(out, act);
        out.put("\n");
    }
}

/// Writes the acts of a call, each on a line of its own.
pub fn put_result(out: &mut Sheet, acts: Result<Items<Act>, NoMemory>) {
    match acts {
        Ok(acts) => put_acts(out, acts.as_slice()),
        Err(NoMemory) => out.lack(),
    }
}

/// The same where there may be none.
pub fn put_answer(out: &mut Sheet, acts: Result<Option<Items<Act>>, NoMemory>) {
    match acts {
        Ok(Some(acts)) => put_acts(out, acts.as_slice()),
        Ok(None) => out.put("another command\n"),
        Err(NoMemory) => out.lack(),
    }
}
