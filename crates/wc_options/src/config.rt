ghost use Rattle.std.specs.Prelude.{◌≡◌, ◌≢◌, ◌<◌, ◌^◌, ◌+◌, ◌∷◌, ◌++◌, [], Ok};
ghost use Rattle.std.specs.Prelude.{Err, Some, None, IfOk, IfErr, OnOk, OnErr, bytes_eq, take};
ghost use Rattle.std.specs.Prelude.{codes, drop, length, option_and_then, slice_index_or};
ghost use Rattle.std.specs.Str.{is_utf8, IsUtf8};
ghost use Rattle.wc_options.specs.Config.{config_of, after_line, after_lines, is_passed_over};
ghost use Rattle.wc_options.specs.Config.{setting_in, with_setting};
ghost use Rattle.wc_options.specs.File.{lines_of, parted};
ghost use Rattle.wc_options.specs.ReadConfig.{IsBadLine};

use crate::file::{first_line, part_line};
use crate::options::Options;
use crate::quotes::unquote;
use crate::refusal::{ConfigRefused, SetRefused};
use crate::version::{Version, is_in_quotes, told_version};
use std::alloc::Global;
use wc_text::NoMemory;

/// Why a line is not taken.
pub(crate) enum LineRefused {
    Unreadable,
    NoMemory,
}

/// The options that a file holds.
///
/// Lines are ended by LF, which the last may lack. Empty lines and lines that begin with `#` are
/// passed over. The first line may be `config_version = 1` or `config_version = 2`, and without it
/// the version is 1. Another line is `name = value`, parted at the first ` = `, and a repeated name
/// takes the last value.
///
/// In version 1 a value is the text as it is. In version 2 a value that begins with `"` ends with
/// another `"`, and between them `\"` and `\\` are for `"` and `\`, with no other `\` and no other
/// `"`; another value is the text as it is.
///
/// Where a line breaks this, is not UTF-8, has no ` = `, names no option, has a value that its
/// option does not take, or would make a 65th server, the answer is the number of the first such
/// line, and nothing is taken from the file.
#[tactic(auto, using(crate::proofs::ConfigLemmas::config_read))]
pub fn read_config(alloc: Global, bytes: &[u8]) -> Result<Options, ConfigRefused>
    ensures read { IfOk result (λ options. config_of bytes.now ≡ Ok options) }
    ensures bad_line { IfErr result (λ refused. refused ≢ ConfigRefused.NoMemory →
        IsBadLine refused (config_of bytes.now)) }
{
    let Ok(options) = Options::new(alloc) else {
        return Err(ConfigRefused::NoMemory);
    };
    match first_line(bytes) {
        Some((line, rest)) => match told_version(line) {
            Some(version) => options.read_lines(alloc, version, 2, rest),
            None => options.read_lines(alloc, Version::One, 1, bytes),
        },
        None => Ok(options),
    }
}

impl Options {
    /// Takes the lines of a file, of which the first has a number.
    #[tactic(auto, using(crate::proofs::ConfigLemmas::lines_read))]
    fn read_lines(
        mut self,
        alloc: Global,
        version: Version,
        first: u64,
        bytes: &[u8],
    ) -> Result<Options, ConfigRefused>
        requires { first + length bytes.now < 2 ^ 64 }
        ensures read { IfOk result (λ options. after_lines version first self (lines_of bytes.now)
            ≡ Ok options) }
        ensures bad_line { IfErr result (λ refused. refused ≢ ConfigRefused.NoMemory →
            IsBadLine refused (after_lines version first self (lines_of bytes.now))) }
    {
        let mut number = first;
        let mut rest = bytes;
        while let Some((line, others)) = first_line(rest) {
            match self.take_line(alloc, version, line) {
                Ok(()) => {}
                Err(LineRefused::Unreadable) => return Err(ConfigRefused::BadLine { line: number }),
                Err(LineRefused::NoMemory) => return Err(ConfigRefused::NoMemory),
            }
            number += 1;
            rest = others;
        }
        Ok(self)
    }

    /// Takes one line of a file.
    #[tactic(auto, using(crate::proofs::ConfigLemmas::lines_taken))]
    fn take_line(&mut self, alloc: Global, version: Version, line: &[u8]) -> Result<(), LineRefused>
        ensures taken { OnOk result (after_line version self.old line.now ≡ Some self.new) }
        ensures refused { IfErr result (λ refused. refused ≢ LineRefused.NoMemory →
            after_line version self.old line.now ≡ None) }
    {
        if is_passed_over(line) {
            return Ok(());
        }
        if is_utf8(line) {
            return self.take_text(alloc, version, line);
        }
        Err(LineRefused::Unreadable)
    }

    fn take_text(&mut self, alloc: Global, version: Version, line: &[u8]) -> Result<(), LineRefused>
        requires { IsUtf8 line.now }
        ensures taken { OnOk result (with_setting self.old
            (option_and_then (setting_in version) (parted line.now)) ≡ Some self.new) }
        ensures refused { IfErr result (λ refused. refused ≢ LineRefused.NoMemory →
            with_setting self.old (option_and_then (setting_in version) (parted line.now))
            ≡ None) }
    {
        match part_line(line) {
            Some((name, written)) => self.take_written(alloc, version, name, written),
            None => Err(LineRefused::Unreadable),
        }
    }

    /// Takes a name and its value as a version has it.
    fn take_written(
        &mut self,
        alloc: Global,
        version: Version,
        name: &[u8],
        written: &[u8],
    ) -> Result<(), LineRefused>
        requires { IsUtf8 written.now }
        ensures taken { OnOk result (with_setting self.old
            (setting_in version (name.now, written.now)) ≡ Some self.new) }
        ensures refused { IfErr result (λ refused. refused ≢ LineRefused.NoMemory →
            with_setting self.old (setting_in version (name.now, written.now)) ≡ None) }
    {
        if !is_in_quotes(version, written) {
            return self.take_value(alloc, name, written);
        }
        match unquote(alloc, written) {
            Ok(Some(value)) => self.take_value(alloc, name, value.as_slice()),
            Ok(None) => Err(LineRefused::Unreadable),
            Err(NoMemory) => Err(LineRefused::NoMemory),
        }
    }

    fn take_value(&mut self, alloc: Global, name: &[u8], value: &[u8]) -> Result<(), LineRefused>
        requires { IsUtf8 value.now }
        ensures taken { OnOk result (with_setting self.old (Some (name.now, value.now))
            ≡ Some self.new) }
        ensures refused { IfErr result (λ refused. refused ≢ LineRefused.NoMemory →
            with_setting self.old (Some (name.now, value.now)) ≡ None) }
    {
        match self.set_bytes(alloc, name, value) {
            Ok(_) => Ok(()),
            Err(SetRefused::NoMemory) => Err(LineRefused::NoMemory),
            Err(SetRefused::UnknownOption) => Err(LineRefused::Unreadable),
            Err(SetRefused::BadValue { range: _ }) => Err(LineRefused::Unreadable),
            Err(SetRefused::TooManyServers { limit: _ }) => Err(LineRefused::Unreadable),
        }
    }
}

/// Whether a line is empty or a comment.
pub fn is_passed_over(line: &[u8]) -> bool
    ensures { result ≡ is_passed_over line.now }
{
    match line {
        [] => true,
        [first, ..] => *first == b'#',
    }
}

#[tactic(auto, using(crate::proofs::ConfigLemmas::utf8_tests))]
fn is_utf8(line: &[u8]) -> bool
    ensures { result ≡ is_utf8 line.now }
{
    match std::str::from_utf8(line) {
        Ok(_) => true,
        Err(_) => false,
    }
}
