//! The lines of a script.

use crate::diffs::one_join;
use crate::dumps::{show_bytes, show_dump};
use crate::hdata::{show_info, show_infolist, show_walk};
use crate::mirrors::show_mirror;
use crate::parts::{part_of, show_of_buffers, show_of_list, show_part};
use crate::sheet::Sheet;
use crate::stage::Stage;
use wc_change_words::{Wrong, handle, number, small_number};

/// How a client asks for all events, and one that is told which lines went.
const SYNC: &str = "sync";

const SYNC_TRIMS: &str = "sync * buffers,buffer,nicklist,trims";

/// What a client then says that is to hold all that the world has.
const DUMPS: &[&str] = &[
    "(b) hdata buffer:gui_buffers(*) number,full_name,short_name,hidden,title,local_variables",
    "(l) hdata buffer:gui_buffers(*)/own_lines/first_line(*)/data \
buffer,id,date,date_usec,date_printed,date_usec_printed,displayed,notify_level,highlight,\
tags_array,prefix,message",
    "(n) nicklist",
];

/// What follows the first word of a line.
fn after_word(line: &str) -> &str {
    match line.split_once(' ') {
        Some((_word, rest)) => rest,
        None => "",
    }
}

impl Stage {
    /// Plays a line of a script, and shows it and its answer.
    pub fn play(&mut self, out: &mut Sheet, line: &str) {
        if line.is_empty() || line.starts_with('#') {
            return out.put_line("", line);
        }
        out.put_line("> ", line);
        if let Err(wrong) = self.act(out, line) {
            out.put_line("", wrong.as_str());
        }
    }

    fn act(&mut self, out: &mut Sheet, line: &str) -> Result<(), Wrong> {
        let words: Vec<&str> = line.split_whitespace().collect(self.alloc)?;
        self.act_on(out, after_word(line), words.as_slice())
    }

    /// Does what words say, of which all but the first are the rest of their line.
    fn act_on(&mut self, out: &mut Sheet, rest: &str, words: &[&str]) -> Result<(), Wrong> {
        match words {
            [] => Err(Wrong::NoWord),
            ["repeat", ..] => self.repeat_line(out, rest),
            ["say", ..] => self.say(out, rest),
            [first, ..] if number(first).is_ok() => self.change_and_show(out, words),
            words => self.command(out, words),
        }
    }

    fn repeat_line(&mut self, out: &mut Sheet, rest: &str) -> Result<(), Wrong> {
        match rest.split_once(' ') {
            Some((count, line)) => self.repeat(out, count, line),
            None => Err(Wrong::NoWord),
        }
    }

    fn command(&mut self, out: &mut Sheet, words: &[&str]) -> Result<(), Wrong> {
        match words {
            ["limit", limit] => self.restart(limit),
            ["random", steps, seed] => self.random(out, steps, seed, false),
            ["random", steps, seed, "limits"] => self.random(out, steps, seed, true),
            ["full", words @ ..] => self.change_without_touch(out, words),
            ["watch", words @ ..] => self.watch(words),
            ["tick"] => self.tick(out),
            ["push", buffer] => self.push_now(out, buffer),
            ["push", buffer, name] => self.push(out, buffer, name),
            _ => self.of_client(out, words),
        }
    }

    /// Does what a word says of the client whose number follows it.
    fn of_client(&mut self, out: &mut Sheet, words: &[&str]) -> Result<(), Wrong> {
        match words {
            ["client", client] => self.come(client),
            ["join", client] => self.join(out, client),
            ["join", client, "trims"] => self.join_with_trims(out, client),
            ["sent", client] => self.show_sent(out, client),
            ["hot", client, buffer, level] => self.count_line(client, buffer, level),
            ["mirror", client] => self.mirror(out, client),
            _ => self.ask(out, words),
        }
    }

    /// Shows what a line asks for, which changes nothing.
    fn ask(&self, out: &mut Sheet, words: &[&str]) -> Result<(), Wrong> {
        match words {
            ["tell"] => show_bytes(out, self.audience.told.as_slice()),
            ["show", words @ ..] => return self.show(out, words),
            ["buffers", words @ ..] => return show_of_buffers(out, self.world.buffers(), words),
            ["list", buffer, words @ ..] => return self.list(out, buffer, words),
            ["dump", words @ ..] => return show_dump(self.alloc, out, &self.world, words),
            _ => return self.look(out, words),
        }
        Ok(())
    }

    /// Shows what a path or a name leads to.
    fn look(&self, out: &mut Sheet, words: &[&str]) -> Result<(), Wrong> {
        let alloc = self.alloc;
        let world = &self.world;
        match words {
            ["walk", path] => show_walk(alloc, out, world, path, ""),
            ["walk", path, keys] => show_walk(alloc, out, world, path, keys),
            ["info", name] => show_info(out, name),
            ["infolist", name] => show_infolist(alloc, out, world, name, ""),
            ["infolist", name, argument] => show_infolist(alloc, out, world, name, argument),
            _ => return Err(Wrong::NoWord),
        }
        Ok(())
    }

    fn watch(&mut self, words: &[&str]) -> Result<(), Wrong> {
        self.watched = part_of(words)?;
        Ok(())
    }

    fn show(&self, out: &mut Sheet, words: &[&str]) -> Result<(), Wrong> {
        let part = part_of(words)?;
        show_part(self.alloc, out, &self.world, &self.pending, part);
        Ok(())
    }

    fn list(&self, out: &mut Sheet, buffer: &str, words: &[&str]) -> Result<(), Wrong> {
        match self.world.nicks(handle(buffer)?) {
            Some(list) => return show_of_list(self.alloc, out, list, words),
            None => out.put("no buffer\n"),
        }
        Ok(())
    }

    /// Pushes what became of the nicklists.
    fn tick(&mut self, out: &mut Sheet) -> Result<(), Wrong> {
        let size = out.text.len();
        self.audience.push_all(out, &self.world, &mut self.pending);
        if out.text.len() == size {
            out.put("nothing was touched\n");
        }
        Ok(())
    }

    /// Tells what became of one nicklist, which is then told again at the next push.
    fn push_now(&mut self, out: &mut Sheet, buffer: &str) -> Result<(), Wrong> {
        let buffer = handle(buffer)?;
        self.audience
            .tell_nicks(out, &self.world, &self.pending, buffer);
        let is_there = self.world.nicks(buffer).is_some();
        out.put(if is_there { "told\n" } else { "no buffer\n" });
        Ok(())
    }

    /// Tells a push by which a nick comes into a nicklist, whether or not it is there.
    fn push(&mut self, out: &mut Sheet, buffer: &str, name: &str) -> Result<(), Wrong> {
        let buffer = handle(buffer)?;
        match one_join(self.alloc, name) {
            Ok(push) => self.audience.push_one(out, buffer, &push),
            Err(wrong) => return Err(wrong),
        }
        Ok(())
    }

    /// A client comes whose mirror holds as many lines a buffer as the world.
    fn come(&mut self, client: &str) -> Result<(), Wrong> {
        let limit = self.world.limit();
        Ok(self.audience.come(number(client)?, Some(limit))?)
    }

    /// A client comes that asks for all that becomes of the world, and for all that there is.
    fn join(&mut self, out: &mut Sheet, client: &str) -> Result<(), Wrong> {
        self.come(client)?;
        self.ask_for_all(out, client, SYNC)
    }

    /// The same of one that is told which lines went, whose mirror has no limit.
    fn join_with_trims(&mut self, out: &mut Sheet, client: &str) -> Result<(), Wrong> {
        self.audience.come(number(client)?, None)?;
        self.ask_for_all(out, client, SYNC_TRIMS)
    }

    fn ask_for_all(
        &mut self,
        out: &mut Sheet,
        client: &str,
        sync: &'static str,
    ) -> Result<(), Wrong> {
        let client = self.audience.client(client)?;
        for line in ["init password=x", sync] {
            let _answer = client.say(self.alloc, out, &self.world, line);
        }
        for line in DUMPS {
            let line: &'static str = *line;
            let _answer = client.say(self.alloc, out, &self.world, line);
        }
        Ok(())
    }

    fn say(&mut self, out: &mut Sheet, rest: &str) -> Result<(), Wrong> {
        let (client, line) = rest.split_once(' ').unwrap_or((rest, ""));
        let client = self.audience.client(client)?;
        let answer = client.say(self.alloc, out, &self.world, line);
        out.put_line("", answer);
        Ok(())
    }

    /// Counts a line of a buffer in the hotlist that a client is told.
    fn count_line(&mut self, client: &str, buffer: &str, level: &str) -> Result<(), Wrong> {
        let client = self.audience.client(client)?;
        client
            .context
            .count_line(handle(buffer)?, small_number(level)?);
        Ok(())
    }

    /// Shows what a client was sent since it was last shown.
    fn show_sent(&mut self, out: &mut Sheet, client: &str) -> Result<(), Wrong> {
        let client = self.audience.client(client)?;
        show_bytes(out, client.screen.sent.as_slice());
        client.screen.sent.clear();
        Ok(())
    }

    fn mirror(&mut self, out: &mut Sheet, client: &str) -> Result<(), Wrong> {
        let client = self.audience.client(client)?;
        show_mirror(self.alloc, out, &self.world, &client.screen);
        Ok(())
    }
}
