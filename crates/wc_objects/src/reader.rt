//! The fields of a message, read from left to right.

ghost use Rattle.std.specs.Prelude.{◌≡◌, Some, None, length};
ghost use Rattle.std.specs.Int.{w32, cast_signed};
ghost use Rattle.wc_objects.specs.Reading.{GivesValue, TakesNoMemory, byte_at, int_at};
ghost use Rattle.wc_objects.specs.Reading.{some_text_at, same_value, keeps, bytes_at, number_at};
ghost use Rattle.wc_objects.specs.Reading.{count_at, tested_at, name_by, text_by, null_at};
ghost use Rattle.wc_objects.specs.Reading.{short_at, decimal_number, decimal_at, pointer_at};
ghost use Rattle.wc_objects.specs.Reading.{kind_by, any_kind, no_text, plain_at};
ghost use Rattle.wc_objects.specs.Kinds.{is_simple};

use crate::fault::{ReadError, Rule};
use crate::hex::{decimal_number, hex_number};
use crate::keys::named_kind;
use crate::kind::Kind;
use std::alloc::Global;
use wc_text::Text;

/// The length of a null text, as four bytes state it.
const NULL: u32 = 0xffff_ffff;

/// The bytes that are left to read.
#[derive(Drop)]
pub struct Reader<'a> {
    pub bytes: &'a [u8],
}

impl<'a> Reader<'a> {
    /// The next bytes, as many as are asked for.
    fn take(&mut self, count: usize) -> Result<&'a [u8], ReadError>
        ensures gives { GivesValue (λ x. x.now) result self.new.bytes.now
            (bytes_at count self.old.bytes.now) }
        ensures no_memory { TakesNoMemory result }
    {
        if self.bytes.len() < count {
            return Err(ReadError::Broken(self.bytes.len()));
        }
        let (front, rest) = self.bytes.split_at(count);
        self.bytes = rest;
        Ok(front)
    }

    /// A number of four bytes.
    #[tactic(auto, unfolding(crate::specs::Reading::number_at))]
    pub fn number(&mut self) -> Result<u32, ReadError>
        ensures { GivesValue same_value result self.new.bytes.now (number_at self.old.bytes.now) }
    {
        if self.bytes.len() < 4 {
            return Err(ReadError::Broken(self.bytes.len()));
        }
        let (front, rest) = self.bytes.split_at(4);
        let number = u32::from_be_bytes([front[0], front[1], front[2], front[3]]);
        self.bytes = rest;
        Ok(number)
    }

    /// A signed byte.
    #[tactic(auto, unfolding(crate::specs::Reading::byte_at))]
    pub fn byte(&mut self) -> Result<i8, ReadError>
        ensures { GivesValue same_value result self.new.bytes.now (byte_at self.old.bytes.now) }
    {
        let front = self.take(1)?;
        Ok(front[0].cast_signed())
    }

    /// A signed number of four bytes.
    #[tactic(auto, unfolding(crate::specs::Reading::int_at))]
    pub fn int(&mut self) -> Result<i32, ReadError>
        ensures { GivesValue same_value result self.new.bytes.now (int_at self.old.bytes.now) }
    {
        let number = self.number()?;
        Ok(number.cast_signed())
    }

    /// A count or a length, which is not negative.
    #[tactic(auto, unfolding(crate::specs::Reading::count_at))]
    pub fn count(&mut self) -> Result<u32, ReadError>
        ensures { GivesValue same_value result self.new.bytes.now (count_at self.old.bytes.now) }
    {
        let before = self.bytes.len();
        let count = self.number()?;
        if count >= 0x8000_0000 {
            return Err(ReadError::Broken(before));
        }
        Ok(count)
    }

    /// A text of that length which keeps a rule.
    #[tactic(auto, unfolding(crate::specs::Reading::tested_at))]
    fn check_rule(&mut self, alloc: Global, rule: Rule, length: u32) -> Result<Text, ReadError>
        ensures { GivesValue same_value result self.new.bytes.now
            (tested_at (keeps rule) length self.old.bytes.now) }
    {
        let before = self.bytes.len();
        let text = self.take(length as usize)?;
        if !rule.keeps(text) {
            return Err(ReadError::Broken(before));
        }
        Ok(Text::from_slice(alloc, text)?)
    }

    /// A text that is not null and keeps a rule.
    #[tactic(auto, unfolding(crate::specs::Reading::name_by))]
    pub fn name(&mut self, alloc: Global, rule: Rule) -> Result<Text, ReadError>
        ensures { GivesValue same_value result self.new.bytes.now
            (name_by (keeps rule) self.old.bytes.now) }
    {
        let length = self.count()?;
        self.check_rule(alloc, rule, length)
    }

    #[tactic(auto, unfolding(crate::specs::Reading::some_text_at))]
    fn some_text(
        &mut self,
        alloc: Global,
        rule: Rule,
        length: u32,
    ) -> Result<Option<Text>, ReadError>
        ensures { GivesValue same_value result self.new.bytes.now
            (some_text_at (keeps rule) length self.old.bytes.now) }
    {
        let text = self.check_rule(alloc, rule, length)?;
        Ok(Some(text))
    }

    /// A text that keeps a rule, or null.
    #[tactic(auto, unfolding(crate::specs::Reading::text_by))]
    pub fn text(&mut self, alloc: Global, rule: Rule) -> Result<Option<Text>, ReadError>
        ensures { GivesValue same_value result self.new.bytes.now
            (text_by (keeps rule) self.old.bytes.now) }
    {
        let before = self.bytes.len();
        let length = self.number()?;
        if length == NULL {
            return Ok(None);
        }
        if length >= 0x8000_0000 {
            return Err(ReadError::Broken(before));
        }
        self.some_text(alloc, rule, length)
    }

    /// The null text.
    #[tactic(auto, unfolding(crate::specs::Reading::null_at))]
    pub fn null(&mut self) -> Result<(), ReadError>
        ensures { GivesValue no_text result self.new.bytes.now (null_at self.old.bytes.now) }
    {
        let before = self.bytes.len();
        if self.number()? != NULL {
            return Err(ReadError::Broken(before));
        }
        Ok(())
    }

    /// A text of one byte of length, which is not 0 and not above a limit.
    #[tactic(auto, unfolding(crate::specs::Reading::short_at))]
    fn short(&mut self, most: u8) -> Result<&'a [u8], ReadError>
        ensures gives { GivesValue (λ x. x.now) result self.new.bytes.now
            (short_at most self.old.bytes.now) }
        ensures no_memory { TakesNoMemory result }
    {
        let before = self.bytes.len();
        let front = self.take(1)?;
        let size = front[0];
        if size == 0 || size > most {
            return Err(ReadError::Broken(before));
        }
        self.take(size as usize)
    }

    /// A number of 64 bits in decimal.
    #[tactic(auto, unfolding(crate::specs::Reading::decimal_at))]
    pub fn decimal(&mut self) -> Result<i64, ReadError>
        ensures { GivesValue same_value result self.new.bytes.now (decimal_at self.old.bytes.now) }
    {
        let before = self.bytes.len();
        let text = self.short(20)?;
        match decimal_number(text) {
            Some(number) => Ok(number),
            None => Err(ReadError::Broken(before.saturating_sub(1))),
        }
    }

    /// A pointer in hex.
    #[tactic(auto, unfolding(crate::specs::Reading::pointer_at))]
    pub fn pointer(&mut self) -> Result<u64, ReadError>
        ensures gives { GivesValue same_value result self.new.bytes.now
            (pointer_at self.old.bytes.now) }
        ensures no_memory { TakesNoMemory result }
    {
        let before = self.bytes.len();
        let text = self.short(16)?;
        match hex_number(text) {
            Some(pointer) => Ok(pointer),
            None => Err(ReadError::Broken(before.saturating_sub(1))),
        }
    }

    /// The letters of a type.
    #[tactic(auto, unfolding(crate::specs::Reading::kind_by))]
    pub fn kind(&mut self) -> Result<Kind, ReadError>
        ensures { GivesValue same_value result self.new.bytes.now
            (kind_by any_kind self.old.bytes.now) }
    {
        let before = self.bytes.len();
        let letters = self.take(3)?;
        match named_kind(letters) {
            Some(kind) => Ok(kind),
            None => Err(ReadError::Broken(before)),
        }
    }

    /// The letters of a type whose values hold no others.
    #[tactic(auto, unfolding(crate::specs::Reading::kind_by))]
    pub fn simple_kind(&mut self) -> Result<Kind, ReadError>
        ensures { GivesValue same_value result self.new.bytes.now
            (kind_by is_simple self.old.bytes.now) }
    {
        let before = self.bytes.len();
        let letters = self.take(3)?;
        match named_kind(letters) {
            Some(kind) if kind.is_simple() => Ok(kind),
            Some(_) | None => Err(ReadError::Broken(before)),
        }
    }

    /// The byte that says that the message is not compressed.
    #[tactic(auto, unfolding(crate::specs::Reading::plain_at))]
    pub fn no_compression(&mut self) -> Result<(), ReadError>
        ensures { GivesValue (λ _. 0) result self.new.bytes.now (plain_at self.old.bytes.now) }
    {
        let before = self.bytes.len();
        let front = self.take(1)?;
        if front[0] != 0 {
            return Err(ReadError::Broken(before));
        }
        Ok(())
    }
}
