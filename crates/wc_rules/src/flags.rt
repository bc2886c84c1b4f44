//! Which lines are displayed, and which of them are to get another flag.

ghost use Rattle.std.specs.Prelude.{◌≡◌, ◌++◌, IfOk, OnOk};
ghost use Rattle.std.specs.Str.{IsUtf8};
ghost use Rattle.wc_filters.specs.Kept.{AreFine};
ghost use Rattle.wc_lines.specs.LineText.{HasUtf8Texts};
ghost use Rattle.wc_rules.specs.Displayed.{is_displayed, line_is_displayed, flip_of, flips_of, is_flipped};

use crate::rules::Rules;
use wc_filters::{Filters, Seeker};
use wc_lines::{Lines, PackedLine};
use wc_model::Flip;
use wc_text::{Items, NoMemory, Text};

impl Rules {
    /// Whether no filter hides a line of the buffer of this full name.
    pub fn displays_line(&self, full_name: &[u8], line: &PackedLine) -> Result<bool, NoMemory>
        requires { HasUtf8Texts line.now }
        ensures { IfOk result (λ shown. shown
            ≡ line_is_displayed self.now.filters full_name.now line.now) }
    {
        let hidden = self.filters.hides_line(full_name, line)?;
        Ok(!hidden)
    }

    /// Whether no filter hides a line of these texts in the buffer of this full name. The texts are
    /// those of a line that is cut.
    pub fn displays_texts(
        &self,
        full_name: &[u8],
        tags: &[Text],
        prefix: &[u8],
        message: &[u8],
    ) -> Result<bool, NoMemory>
        requires prefix { IsUtf8 prefix.now }
        requires message { IsUtf8 message.now }
        ensures { IfOk result (λ shown. shown ≡ is_displayed self.now.filters full_name.now
            tags.now prefix.now message.now) }
    {
        let hidden = self.filters.hides_texts(full_name, tags, prefix, message)?;
        Ok(!hidden)
    }

    /// Puts after the list the flips of those lines of a buffer, from the oldest, whose flag is not
    /// what these filters make of it under this full name. Where memory is refused the list may have
    /// some of them.
    pub fn flips_of(
        &self,
        filters: &Filters,
        full_name: &[u8],
        lines: &Lines,
        flips: &mut Items<Flip>,
    ) -> Result<(), NoMemory>
        requires { AreFine self.now.verdicts filters.now }
        ensures { OnOk result (flips.new ≡ flips.old
            ++ flips_of filters.now full_name.now lines.now.lines) }
    {
        let mut seeker = filters.seeker(full_name)?;
        push_flips(&mut seeker, lines, flips)
    }
}

/// Puts the flips of the lines whose flag differs from what is found after the list.
fn push_flips(
    seeker: &mut Seeker<'_>,
    lines: &Lines,
    flips: &mut Items<Flip>,
) -> Result<(), NoMemory>
    ensures { OnOk result (flips.new ≡ flips.old
        ++ flips_of seeker.old.filters seeker.old.name lines.now.lines) }
{
    for line in lines.iter() {
        if is_flipped(seeker, line) {
            flips.push(flip_of(line))?;
        }
    }
    Ok(())
}

/// Whether the flag of a line is not what is found.
fn is_flipped(seeker: &mut Seeker<'_>, line: &PackedLine) -> bool
    requires { HasUtf8Texts line.now }
    ensures found { result ≡ is_flipped seeker.old.filters seeker.old.name line.now }
    ensures same { seeker.new ≡ seeker.old }
{
    let hidden = seeker.hides_line(line);
    line.displayed() == hidden
}

/// The other flag for a line.
fn flip_of(line: &PackedLine) -> Flip
    ensures { result ≡ flip_of line.now }
{
    Flip {
        content: line.content(),
        displayed: !line.displayed(),
    }
}
