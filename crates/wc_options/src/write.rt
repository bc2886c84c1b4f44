ghost use Rattle.std.specs.Prelude.{◌≡◌, ◌++◌, ◌∷◌, [], ℕ, List, Ok, IfOk, OnOk, length, map};
ghost use Rattle.std.specs.List.{flat_map};
ghost use Rattle.wc_options.specs.Config.{config_of, config_text, text_of_lines, prefix_of};
ghost use Rattle.wc_options.specs.Config.{set_lines, lines_of_value, server_lines};
ghost use Rattle.wc_options.specs.File.{equals_sign};
ghost use Rattle.wc_options.specs.Kept.{AreOptionsKept};
ghost use Rattle.wc_options.specs.Quotes.{quoted};
ghost use Rattle.wc_options.specs.Table.{globals, of_server, row_of};

use crate::file::EQUALS_SIGN;
use crate::options::Options;
use crate::place::SERVER_PREFIX;
use crate::quotes::append_quoted;
use crate::server::Server;
use crate::table::{GLOBALS, OF_SERVER, Row};
use crate::version::VERSION_LINE;
use std::alloc::Global;
use wc_text::{NoMemory, Text};

impl Options {
    /// The file that holds these options, of version 2: the version, each option of the program
    /// that is set, in the order of the table, and those of each server in the order of their
    /// making, each value in quotes. A server's `addresses` are always written.
    ///
    /// `read_config` gives these options again. So whatever file they were read from, also one of
    /// version 1, may be replaced by this one.
    pub fn write_config(&self, alloc: Global) -> Result<Text, NoMemory>
        ensures written { IfOk result (λ text. text ≡ config_text self.now) }
        ensures reads_back { IfOk result (λ text. config_of text ≡ Ok self.now) }
        ensures reads_old_back { IfOk result (λ text. (old : List ℕ) → config_of old ≡ Ok self.now →
            config_of text ≡ config_of old) }
    {
        let mut text = Text::new(alloc);
        text.append(VERSION_LINE)?;
        text.append(b"\n")?;
        self.write_globals(&mut text)?;
        self.write_servers(alloc, &mut text)?;
        Ok(text)
    }

    fn write_globals(&self, text: &mut Text) -> Result<(), NoMemory>
        ensures written { OnOk result
            (text.new ≡ text.old ++ text_of_lines (set_lines [] globals self.now.set)) }
        ensures kept { AreOptionsKept self.now }
    {
        write_values(text, b"", &GLOBALS, &self.set)
    }

    fn write_servers(&self, alloc: Global, text: &mut Text) -> Result<(), NoMemory>
        ensures { OnOk result
            (text.new ≡ text.old ++ text_of_lines (flat_map server_lines self.now.servers)) }
    {
        for place in 0..self.servers.len() {
            let server = &self.servers[place];
            server.write(alloc, text)?;
        }
        Ok(())
    }
}

impl Server {
    fn write(&self, alloc: Global, text: &mut Text) -> Result<(), NoMemory>
        requires { length self.now.own ≡ 12 }
        ensures { OnOk result (text.new ≡ text.old ++ text_of_lines (server_lines self.now)) }
    {
        let mut prefix = Text::new(alloc);
        prefix.append(SERVER_PREFIX)?;
        prefix.append(self.name())?;
        prefix.append(b".")?;
        write_values(text, prefix.as_slice(), &OF_SERVER, self.all_own())
    }
}

/// Writes a line for each option of a table that has a value.
fn write_values(
    text: &mut Text,
    prefix: &[u8],
    table: &[Row],
    values: &[Option<Text>],
) -> Result<(), NoMemory>
    requires { length values.now ≡ length table.now }
    ensures { OnOk result (text.new ≡ text.old
        ++ text_of_lines (set_lines prefix.now (map row_of table.now) values.now)) }
{
    for place in 0..table.len() {
        write_value(text, prefix, &table[place], &values[place])?;
    }
    Ok(())
}

fn write_value(
    text: &mut Text,
    prefix: &[u8],
    row: &Row,
    value: &Option<Text>,
) -> Result<(), NoMemory>
    ensures { OnOk result (text.new ≡ text.old
        ++ text_of_lines (lines_of_value prefix.now (row_of row.now) value.now)) }
{
    match value {
        Some(value) => write_line(text, prefix, row.name, value.as_slice()),
        None => Ok(()),
    }
}

#[tactic(auto, using(crate::proofs::WriteLemmas::line_written))]
fn write_line(text: &mut Text, prefix: &[u8], name: &[u8], value: &[u8]) -> Result<(), NoMemory>
    ensures { OnOk result (text.new ≡ text.old ++ (prefix.now ++ name.now ++ equals_sign
        ++ quoted value.now ++ 10 ∷ [] ++ [])) }
{
    text.append(prefix)?;
    text.append(name)?;
    text.append(EQUALS_SIGN)?;
    append_quoted(text, value)?;
    text.append(b"\n")
}
