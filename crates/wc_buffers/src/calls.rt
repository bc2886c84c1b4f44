ghost use Rattle.std.specs.Prelude.{◌≡◌, ◌≢◌, ◌<◌, None, Some, OnOk, OnErr, IfOk, IfErr, All};
ghost use Rattle.std.specs.Prelude.{false, true};
ghost use Rattle.std.specs.Str.{IsUtf8};
ghost use Rattle.wc_buffers.specs.Calls.{is_there, buffer_of, entry_of, new_entry, with_buffer};
ghost use Rattle.wc_buffers.specs.Calls.{without_buffer, move_group_to, merge_groups};
ghost use Rattle.wc_buffers.specs.Calls.{unmerge_group, with_entry, with_hidden, with_full_name};
ghost use Rattle.wc_buffers.specs.Calls.{with_short_name, with_title, with_var, without_var};
ghost use Rattle.wc_buffers.specs.Calls.{lacks_var, no_buffer, close_refusal};
ghost use Rattle.wc_buffers.specs.Calls.{add_refusal, add_refusal_so_far};
ghost use Rattle.wc_buffers.specs.Calls.{move_refusal, merge_refusal, unmerge_refusal};
ghost use Rattle.wc_buffers.specs.Calls.{rename_refusal, short_name_refusal, set_var_refusal};
ghost use Rattle.wc_buffers.specs.Calls.{remove_var_refusal};
ghost use Rattle.wc_buffers.specs.Entries.{IsText};
ghost use Rattle.wc_buffers.specs.Kept.{HasUtf8Row};
ghost use Rattle.wc_buffers.specs.Vars.{cut_to};

use crate::buffers::Buffers;
use crate::refusals::MOST_VARS;
use crate::refused::BufferRefused;
use crate::row::{BufferEntry, BufferRow};
use crate::vars::{VALUE_LIMIT, Vars, cut_value};
use std::alloc::Global;
use wc_text::{Handle, Items, NoMemory, Pair, Text, cut};

/// A new buffer. Its title is cut at 1024 bytes.
fn new_entry(alloc: Global, row: BufferRow, vars: &[Pair]) -> Result<BufferEntry, NoMemory>
    requires text { HasUtf8Row row }
    requires vars { All IsText vars.now }
    ensures { IfOk result (λ entry. entry ≡ new_entry row vars.now) }
{
    let vars = Vars::of(alloc, row.full_name.as_slice(), vars)?;
    let row = cut_title(alloc, row)?;
    Ok(BufferEntry { row, vars })
}

fn cut_title(alloc: Global, row: BufferRow) -> Result<BufferRow, NoMemory>
    requires { IsUtf8 row.title }
    ensures { IfOk result (λ cut. cut ≡ record row { title = cut_to 1024 row.title }) }
{
    if cut(row.title.as_slice(), VALUE_LIMIT) == row.title.as_slice().len() {
        return Ok(row);
    }
    let title = Text::from_slice(alloc, cut_value(row.title.as_slice()))?;
    Ok(BufferRow { title, ..row })
}

impl Buffers {
    /// Adds a buffer as a group of its own at the end. Its variables begin with `plugin`, the part
    /// of its full name before the first dot, and `name`, the part after that dot. Of a repeated
    /// name in the others the last value counts. A refusal changes nothing: `BadName` of a full
    /// name, a short name or a variable, `FixedVar`, `NameTaken`, `TooMany` at 256 buffers and then
    /// at more than 64 variables, in this order.
    pub fn add(
        &mut self,
        alloc: Global,
        row: BufferRow,
        vars: &Items<Pair>,
    ) -> Result<(), BufferRefused>
        requires handle { 0 < row.handle.0 }
        requires absent { is_there row.handle self.old ≡ false }
        requires text { HasUtf8Row row }
        requires vars { All IsText vars.now }
        ensures accepted { OnOk result (add_refusal row vars.now self.old ≡ None) }
        ensures after { OnOk result (self.new ≡ with_buffer row vars.now self.old) }
        ensures refused { IfErr result (λ e. e ≢ BufferRefused.NoMemory →
            add_refusal row vars.now self.old ≡ Some e) }
        ensures err { OnErr result (self.new ≡ self.old) }
    {
        if let Some(refused) = self.add_refusal(alloc, &row, vars.as_slice()) {
            return Err(refused);
        }
        self.put_new(alloc, row, vars.as_slice())
    }

    /// Puts a new buffer in, where it does not have too many variables.
    fn put_new(&mut self, alloc: Global, row: BufferRow, vars: &[Pair]) -> Result<(), BufferRefused>
        requires handle { 0 < row.handle.0 }
        requires absent { is_there row.handle self.old ≡ false }
        requires text { HasUtf8Row row }
        requires vars { All IsText vars.now }
        requires so_far { add_refusal_so_far row vars.now self.old ≡ None }
        ensures accepted { OnOk result (add_refusal row vars.now self.old ≡ None) }
        ensures after { OnOk result (self.new ≡ with_buffer row vars.now self.old) }
        ensures refused { IfErr result (λ e. e ≢ BufferRefused.NoMemory →
            add_refusal row vars.now self.old ≡ Some e) }
        ensures err { OnErr result (self.new ≡ self.old) }
    {
        let entry = new_entry(alloc, row, vars)?;
        if entry.vars.len() > MOST_VARS {
            return Err(BufferRefused::TooMany {
                limit: MOST_VARS as u32,
            });
        }
        self.put(alloc, entry)?;
        Ok(())
    }

    /// Takes a buffer out, and its group where that is left empty. It takes no memory. A refusal
    /// changes nothing: `NoBuffer`, `IsCore`, in this order.
    pub fn close(&mut self, h: Handle) -> Result<BufferRow, BufferRefused>
        ensures accepted { OnOk result (close_refusal h self.old ≡ None) }
        ensures row { IfOk result (λ row. buffer_of h self.old ≡ Some row) }
        ensures after { OnOk result (self.new ≡ without_buffer h self.old) }
        ensures refused { IfErr result (λ e. close_refusal h self.old ≡ Some e) }
        ensures err { OnErr result (self.new ≡ self.old) }
    {
        if let Some(refused) = self.close_refusal(h) {
            return Err(refused);
        }
        Ok(self.take(h))
    }

    /// Moves the group of a buffer so that it has this number. It takes no memory. A refusal
    /// changes nothing: `NoBuffer`, `BadNumber` where it is not 1 to the number of groups, in this
    /// order.
    pub fn move_to(&mut self, h: Handle, number: u32) -> Result<(), BufferRefused>
        ensures accepted { OnOk result (move_refusal h number self.old ≡ None) }
        ensures after { OnOk result (self.new ≡ move_group_to h number self.old) }
        ensures refused { IfErr result (λ e. move_refusal h number self.old ≡ Some e) }
        ensures err { OnErr result (self.new ≡ self.old) }
    {
        if let Some(refused) = self.move_refusal(h, number) {
            return Err(refused);
        }
        self.move_group(h, number);
        Ok(())
    }

    /// Takes a buffer out of its group and puts it after those of another's. It takes no memory. A
    /// refusal changes nothing: `NoBuffer` of either, `SameGroup`, in this order.
    pub fn merge(&mut self, h: Handle, into: Handle) -> Result<(), BufferRefused>
        ensures accepted { OnOk result (merge_refusal h into self.old ≡ None) }
        ensures after { OnOk result (self.new ≡ merge_groups h into self.old) }
        ensures refused { IfErr result (λ e. merge_refusal h into self.old ≡ Some e) }
        ensures err { OnErr result (self.new ≡ self.old) }
    {
        if let Some(refused) = self.merge_refusal(h, into) {
            return Err(refused);
        }
        self.append(h, into);
        Ok(())
    }

    /// Puts a buffer as a new group directly after its old one. It takes no memory. A refusal
    /// changes nothing: `NoBuffer`, `NotMerged`, in this order.
    pub fn unmerge(&mut self, h: Handle) -> Result<(), BufferRefused>
        ensures accepted { OnOk result (unmerge_refusal h self.old ≡ None) }
        ensures after { OnOk result (self.new ≡ unmerge_group h self.old) }
        ensures refused { IfErr result (λ e. unmerge_refusal h self.old ≡ Some e) }
        ensures err { OnErr result (self.new ≡ self.old) }
    {
        if let Some(refused) = self.unmerge_refusal(h) {
            return Err(refused);
        }
        self.part(h);
        Ok(())
    }

    /// Hides a buffer, also one that is hidden. It takes no memory. A refusal changes nothing:
    /// `NoBuffer`.
    pub fn hide(&mut self, h: Handle) -> Result<(), BufferRefused>
        ensures accepted { OnOk result (no_buffer h self.old ≡ None) }
        ensures after { OnOk result (self.new ≡ with_entry h (with_hidden true) self.old) }
        ensures refused { IfErr result (λ e. no_buffer h self.old ≡ Some e) }
        ensures err { OnErr result (self.new ≡ self.old) }
    {
        self.set_hidden(h, true)
    }

    /// Shows a buffer again, also one that is not hidden. It takes no memory. A refusal changes
    /// nothing: `NoBuffer`.
    pub fn unhide(&mut self, h: Handle) -> Result<(), BufferRefused>
        ensures accepted { OnOk result (no_buffer h self.old ≡ None) }
        ensures after { OnOk result (self.new ≡ with_entry h (with_hidden false) self.old) }
        ensures refused { IfErr result (λ e. no_buffer h self.old ≡ Some e) }
        ensures err { OnErr result (self.new ≡ self.old) }
    {
        self.set_hidden(h, false)
    }

    fn set_hidden(&mut self, h: Handle, hidden: bool) -> Result<(), BufferRefused>
        ensures accepted { OnOk result (no_buffer h self.old ≡ None) }
        ensures after { OnOk result (self.new ≡ with_entry h (with_hidden hidden) self.old) }
        ensures refused { IfErr result (λ e. no_buffer h self.old ≡ Some e) }
        ensures err { OnErr result (self.new ≡ self.old) }
    {
        if let Some(refused) = self.no_buffer(h) {
            return Err(refused);
        }
        self.put_hidden(h, hidden);
        Ok(())
    }

    /// Gives a buffer another full name, and the variables `plugin` and `name` that follow from it.
    /// A refusal changes nothing: `NoBuffer`, `BadName` where it is empty or above 256 bytes,
    /// `NameTaken` by another buffer, in this order.
    pub fn rename(
        &mut self,
        alloc: Global,
        h: Handle,
        full_name: &Text,
    ) -> Result<(), BufferRefused>
        requires { IsUtf8 full_name.now }
        ensures accepted { OnOk result (rename_refusal h full_name.now self.old ≡ None) }
        ensures after { OnOk result
            (self.new ≡ with_entry h (with_full_name full_name.now) self.old) }
        ensures refused { IfErr result (λ e. e ≢ BufferRefused.NoMemory →
            rename_refusal h full_name.now self.old ≡ Some e) }
        ensures err { OnErr result (self.new ≡ self.old) }
    {
        if let Some(refused) = self.rename_refusal(alloc, h, full_name) {
            return Err(refused);
        }
        self.put_full_name(alloc, h, full_name)?;
        Ok(())
    }

    /// Gives a buffer another short name. A refusal changes nothing: `NoBuffer`, `BadName` where it
    /// is empty or above 128 bytes, in this order.
    pub fn set_short_name(
        &mut self,
        alloc: Global,
        h: Handle,
        name: &Text,
    ) -> Result<(), BufferRefused>
        requires { IsUtf8 name.now }
        ensures accepted { OnOk result (short_name_refusal h name.now self.old ≡ None) }
        ensures after { OnOk result (self.new ≡ with_entry h (with_short_name name.now) self.old) }
        ensures refused { IfErr result (λ e. e ≢ BufferRefused.NoMemory →
            short_name_refusal h name.now self.old ≡ Some e) }
        ensures err { OnErr result (self.new ≡ self.old) }
    {
        if let Some(refused) = self.short_name_refusal(h, name.as_slice()) {
            return Err(refused);
        }
        let name = name.copy(alloc)?;
        self.put_short_name(h, name);
        Ok(())
    }

    /// Gives a buffer another title, which is cut at 1024 bytes. A refusal changes nothing:
    /// `NoBuffer`.
    pub fn set_title(&mut self, alloc: Global, h: Handle, title: &Text) -> Result<(), BufferRefused>
        requires { IsUtf8 title.now }
        ensures accepted { OnOk result (no_buffer h self.old ≡ None) }
        ensures after { OnOk result (self.new ≡ with_entry h (with_title (cut_to 1024 title.now))
            self.old) }
        ensures refused { IfErr result (λ e. e ≢ BufferRefused.NoMemory → no_buffer h self.old
            ≡ Some e) }
        ensures err { OnErr result (self.new ≡ self.old) }
    {
        if let Some(refused) = self.no_buffer(h) {
            return Err(refused);
        }
        let title = Text::from_slice(alloc, cut_value(title.as_slice()))?;
        self.put_title(h, title);
        Ok(())
    }

    /// Sets a variable, whose value is cut at 1024 bytes: a new one goes last, a changed one keeps
    /// its place. True where it is new. A refusal changes nothing: `NoBuffer`, `BadName` where the
    /// name is empty or above 64 bytes, `FixedVar`, `TooMany` at a new one where 64 are there, in
    /// this order.
    pub fn set_var(
        &mut self,
        alloc: Global,
        h: Handle,
        name: &Text,
        value: &Text,
    ) -> Result<bool, BufferRefused>
        requires name { IsUtf8 name.now }
        requires value { IsUtf8 value.now }
        ensures accepted { OnOk result (set_var_refusal h name.now self.old ≡ None) }
        ensures after { OnOk result
            (self.new ≡ with_entry h (with_var name.now value.now) self.old) }
        ensures new { IfOk result (λ new. new ≡ lacks_var name.now (entry_of h self.old)) }
        ensures refused { IfErr result (λ e. e ≢ BufferRefused.NoMemory →
            set_var_refusal h name.now self.old ≡ Some e) }
        ensures err { OnErr result (self.new ≡ self.old) }
    {
        if let Some(refused) = self.set_var_refusal(alloc, h, name) {
            return Err(refused);
        }
        let new = self.put_var(alloc, h, name.as_slice(), value.as_slice())?;
        Ok(new)
    }

    /// Takes a variable out, and the others close up. A refusal changes nothing: `NoBuffer`,
    /// `BadName` where the name is empty or above 64 bytes, `FixedVar`, `NoVar`, in this order.
    pub fn remove_var(&mut self, alloc: Global, h: Handle, name: &Text) -> Result<(), BufferRefused>
        ensures accepted { OnOk result (remove_var_refusal h name.now self.old ≡ None) }
        ensures after { OnOk result (self.new ≡ with_entry h (without_var name.now) self.old) }
        ensures refused { IfErr result (λ e. e ≢ BufferRefused.NoMemory →
            remove_var_refusal h name.now self.old ≡ Some e) }
        ensures err { OnErr result (self.new ≡ self.old) }
    {
        if let Some(refused) = self.remove_var_refusal(alloc, h, name) {
            return Err(refused);
        }
        self.drop_var(h, name.as_slice());
        Ok(())
    }
}
