ghost use Rattle.std.specs.Prelude.{◌≡◌, ◌≢◌, length, find, option_copied, Some};
ghost use Rattle.wc_text.specs.declared.names.Pair.{Pair};
ghost use Rattle.std.specs.List.{list_any};
ghost use Rattle.wc_buffers.specs.Groups.{rows};
ghost use Rattle.wc_buffers.specs.Calls.{AnswersRefusal, no_buffer, is_bad_name, bad_name};
ghost use Rattle.wc_buffers.specs.Calls.{bad_names, is_fixed, fixed_var, refusal_of_name};
ghost use Rattle.wc_buffers.specs.Calls.{other_named, add_refusal_so_far, close_refusal};
ghost use Rattle.wc_buffers.specs.Calls.{move_refusal, merge_refusal, unmerge_refusal};
ghost use Rattle.wc_buffers.specs.Calls.{rename_refusal, short_name_refusal, var_refusal};
ghost use Rattle.wc_buffers.specs.Calls.{set_var_refusal, remove_var_refusal, lacks_var, is_full};
ghost use Rattle.wc_buffers.specs.Calls.{no_room, bad_var_names, fixed_vars, are_together};
ghost use Rattle.wc_buffers.specs.Calls.{is_alone, entry_of};

use crate::buffers::Buffers;
use crate::group::MOST_BUFFERS;
use crate::refused::BufferRefused;
use crate::row::BufferRow;
use std::alloc::Global;
use wc_text::{Handle, NoMemory, Pair, Text};

/// The core buffer, which can't be closed.
const CORE: Handle = Handle(1);

/// The most bytes of a full name.
const FULL_NAME_LIMIT: usize = 256;

/// The most bytes of a short name.
const SHORT_NAME_LIMIT: usize = 128;

/// The most bytes of the name of a variable.
const VAR_NAME_LIMIT: usize = 64;

/// The most variables of a buffer.
pub(crate) const MOST_VARS: usize = 64;

fn is_bad_name(limit: usize, name: &[u8]) -> bool
    ensures { result ≡ is_bad_name limit name.now }
{
    name.is_empty() || name.len() > limit
}

fn bad_name(limit: usize, name: &[u8]) -> Option<BufferRefused>
    ensures { result ≡ bad_name limit name.now }
{
    if is_bad_name(limit, name) {
        return Some(BufferRefused::BadName {
            length: name.len() as u64,
        });
    }
    None
}

fn is_fixed(name: &[u8]) -> bool
    ensures { result ≡ is_fixed name.now }
{
    name == b"plugin".as_slice() || name == b"name".as_slice()
}

fn refused_fixed(alloc: Global, name: &Text) -> BufferRefused
    ensures { result ≢ BufferRefused.NoMemory → result ≡ BufferRefused.FixedVar name.now }
{
    match name.copy(alloc) {
        Ok(name) => BufferRefused::FixedVar { name },
        Err(NoMemory) => BufferRefused::NoMemory,
    }
}

fn fixed_var(alloc: Global, name: &Text) -> Option<BufferRefused>
    ensures { AnswersRefusal (fixed_var name.now) result }
{
    if is_fixed(name.as_slice()) {
        return Some(refused_fixed(alloc, name));
    }
    None
}

/// The first variable with a bad name.
fn bad_var_names(vars: &[Pair]) -> Option<BufferRefused>
    ensures { result ≡ bad_var_names vars.now }
{
    match vars
        .iter()
        .find(|var| is_bad_name(VAR_NAME_LIMIT, var.name.as_slice()))
    {
        Some(var) => bad_name(VAR_NAME_LIMIT, var.name.as_slice()),
        None => None,
    }
}

fn first_fixed(vars: &[Pair]) -> Option<&Pair>
    ensures { option_copied result ≡ find (λ (v : Pair). is_fixed v.name) vars.now }
{
    vars.iter().find(|var| is_fixed(var.name.as_slice()))
}

/// The first variable that every buffer has by itself.
fn fixed_vars(alloc: Global, vars: &[Pair]) -> Option<BufferRefused>
    ensures { AnswersRefusal (fixed_vars vars.now) result }
{
    match first_fixed(vars) {
        Some(var) => Some(refused_fixed(alloc, &var.name)),
        None => None,
    }
}

/// The first reason for which a new buffer can't have these names.
#[tactic(auto, unfolding(crate::specs::Calls::bad_names))]
fn bad_names(alloc: Global, row: &BufferRow, vars: &[Pair]) -> Option<BufferRefused>
    ensures { AnswersRefusal (bad_names row.now vars.now) result }
{
    if let Some(refused) = bad_name(FULL_NAME_LIMIT, row.full_name.as_slice()) {
        return Some(refused);
    }
    if let Some(refused) = bad_name(SHORT_NAME_LIMIT, row.short_name.as_slice()) {
        return Some(refused);
    }
    if let Some(refused) = bad_var_names(vars) {
        return Some(refused);
    }
    fixed_vars(alloc, vars)
}

impl Buffers {
    pub(crate) fn no_buffer(&self, h: Handle) -> Option<BufferRefused>
        ensures { result ≡ no_buffer h self.now }
    {
        if self.is_there(h) {
            return None;
        }
        Some(BufferRefused::NoBuffer { handle: h })
    }

    fn name_taken(&self, alloc: Global, name: &Text, h: Handle) -> Option<BufferRefused>
        ensures { AnswersRefusal (refusal_of_name name.now h self.now) result }
    {
        if self.is_taken(name.as_slice(), h) {
            return match name.copy(alloc) {
                Ok(name) => Some(BufferRefused::NameTaken { name }),
                Err(NoMemory) => Some(BufferRefused::NoMemory),
            };
        }
        None
    }

    #[tactic(auto, unfolding(crate::specs::Calls::no_room))]
    fn no_room(&self) -> Option<BufferRefused>
        ensures { result ≡ no_room self.now }
    {
        if self.count() >= MOST_BUFFERS {
            return Some(BufferRefused::TooMany {
                limit: MOST_BUFFERS as u32,
            });
        }
        None
    }

    /// The first reason not to add a buffer, but for the number of its variables.
    #[tactic(auto, unfolding(crate::specs::Calls::add_refusal_so_far))]
    pub(crate) fn add_refusal(
        &self,
        alloc: Global,
        row: &BufferRow,
        vars: &[Pair],
    ) -> Option<BufferRefused>
        ensures { AnswersRefusal (add_refusal_so_far row.now vars.now self.now) result }
    {
        if let Some(refused) = bad_names(alloc, row, vars) {
            return Some(refused);
        }
        if let Some(refused) = self.name_taken(alloc, &row.full_name, row.handle) {
            return Some(refused);
        }
        self.no_room()
    }

    #[tactic(auto, unfolding(crate::specs::Calls::close_refusal))]
    pub(crate) fn close_refusal(&self, h: Handle) -> Option<BufferRefused>
        ensures { result ≡ close_refusal h self.now }
    {
        if let Some(refused) = self.no_buffer(h) {
            return Some(refused);
        }
        if h.0 == CORE.0 {
            return Some(BufferRefused::IsCore);
        }
        None
    }

    #[tactic(auto, unfolding(crate::specs::Calls::move_refusal))]
    pub(crate) fn move_refusal(&self, h: Handle, number: u32) -> Option<BufferRefused>
        ensures { result ≡ move_refusal h number self.now }
    {
        if let Some(refused) = self.no_buffer(h) {
            return Some(refused);
        }
        if number == 0 || number as usize > self.group_count() {
            return Some(BufferRefused::BadNumber { number });
        }
        None
    }

    #[tactic(auto, unfolding(crate::specs::Calls::merge_refusal))]
    pub(crate) fn merge_refusal(&self, h: Handle, into: Handle) -> Option<BufferRefused>
        ensures { result ≡ merge_refusal h into self.now }
    {
        if let Some(refused) = self.no_buffer(h) {
            return Some(refused);
        }
        if let Some(refused) = self.no_buffer(into) {
            return Some(refused);
        }
        if !self.are_together(h, into) {
            return None;
        }
        match self.number(h) {
            Some(number) => Some(BufferRefused::SameGroup { number }),
            None => None,
        }
    }

    #[tactic(auto, unfolding(crate::specs::Calls::unmerge_refusal))]
    pub(crate) fn unmerge_refusal(&self, h: Handle) -> Option<BufferRefused>
        ensures { result ≡ unmerge_refusal h self.now }
    {
        if let Some(refused) = self.no_buffer(h) {
            return Some(refused);
        }
        if self.is_alone(h) {
            return Some(BufferRefused::NotMerged);
        }
        None
    }

    /// Why `rename` would refuse this full name, if it would. None otherwise; nothing changes.
    #[tactic(auto, unfolding(crate::specs::Calls::rename_refusal))]
    pub fn rename_refusal(&self, alloc: Global, h: Handle, name: &Text) -> Option<BufferRefused>
        ensures { AnswersRefusal (rename_refusal h name.now self.now) result }
    {
        if let Some(refused) = self.no_buffer(h) {
            return Some(refused);
        }
        if let Some(refused) = bad_name(FULL_NAME_LIMIT, name.as_slice()) {
            return Some(refused);
        }
        self.name_taken(alloc, name, h)
    }

    #[tactic(auto, unfolding(crate::specs::Calls::short_name_refusal))]
    pub(crate) fn short_name_refusal(&self, h: Handle, name: &[u8]) -> Option<BufferRefused>
        ensures { result ≡ short_name_refusal h name.now self.now }
    {
        if let Some(refused) = self.no_buffer(h) {
            return Some(refused);
        }
        bad_name(SHORT_NAME_LIMIT, name)
    }

    /// The first reason not to set or remove any variable of this name.
    #[tactic(auto, unfolding(crate::specs::Calls::var_refusal))]
    fn var_refusal(&self, alloc: Global, h: Handle, name: &Text) -> Option<BufferRefused>
        ensures { AnswersRefusal (var_refusal h name.now self.now) result }
    {
        if let Some(refused) = self.no_buffer(h) {
            return Some(refused);
        }
        if let Some(refused) = bad_name(VAR_NAME_LIMIT, name.as_slice()) {
            return Some(refused);
        }
        fixed_var(alloc, name)
    }

    #[tactic(auto, unfolding(crate::specs::Calls::set_var_refusal))]
    pub(crate) fn set_var_refusal(
        &self,
        alloc: Global,
        h: Handle,
        name: &Text,
    ) -> Option<BufferRefused>
        ensures { AnswersRefusal (set_var_refusal h name.now self.now) result }
    {
        if let Some(refused) = self.var_refusal(alloc, h, name) {
            return Some(refused);
        }
        if self.lacks_var(h, name.as_slice()) && self.is_full(h) {
            return Some(BufferRefused::TooMany {
                limit: MOST_VARS as u32,
            });
        }
        None
    }

    #[tactic(auto, unfolding(crate::specs::Calls::remove_var_refusal))]
    pub(crate) fn remove_var_refusal(
        &self,
        alloc: Global,
        h: Handle,
        name: &Text,
    ) -> Option<BufferRefused>
        ensures { AnswersRefusal (remove_var_refusal h name.now self.now) result }
    {
        if let Some(refused) = self.var_refusal(alloc, h, name) {
            return Some(refused);
        }
        if !self.lacks_var(h, name.as_slice()) {
            return None;
        }
        match name.copy(alloc) {
            Ok(name) => Some(BufferRefused::NoVar { name }),
            Err(NoMemory) => Some(BufferRefused::NoMemory),
        }
    }

    /// Whether a buffer other than this one has the full name.
    fn is_taken(&self, name: &[u8], h: Handle) -> bool
        ensures { result ≡ list_any (other_named name.now h) (rows self.now) }
    {
        match self.names.get(name) {
            Some(other) => other.0 != h.0,
            None => false,
        }
    }

    fn are_together(&self, h: Handle, into: Handle) -> bool
        ensures { result ≡ are_together h into self.now }
    {
        let _ = &self.entries;
        self.table.are_together(h, into)
    }

    fn is_alone(&self, h: Handle) -> bool
        ensures { result ≡ is_alone h self.now }
    {
        let _ = &self.entries;
        self.table.is_alone(h)
    }

    /// Whether the buffer has no variable of that name.
    fn lacks_var(&self, h: Handle, name: &[u8]) -> bool
        ensures { result ≡ lacks_var name.now (entry_of h self.now) }
    {
        match self.entry(h) {
            Some(entry) => entry.vars.get(name).is_none(),
            None => true,
        }
    }

    /// Whether the buffer has as many variables as are allowed.
    fn is_full(&self, h: Handle) -> bool
        ensures { result ≡ is_full (entry_of h self.now) }
    {
        match self.entry(h) {
            Some(entry) => entry.vars.len() >= MOST_VARS,
            None => true,
        }
    }
}
