ghost use Rattle.std.specs.Prelude.{◌≡◌, ◌≤◌, ◌<◌, ◌++◌, ◌∷◌, [], length, vec_capacity};
ghost use Rattle.std.specs.Prelude.{IfOk};
ghost use Rattle.wc_buffers.specs.Groups.{in_group, without};
ghost use Rattle.wc_buffers.specs.Table.{key};

use std::alloc::Global;
use std::marker::Model;
use wc_text::{Handle, NoMemory};

/// The most buffers that may be there.
pub(crate) const MOST_BUFFERS: usize = 256;

/// A group of buffers by their handles, with room for all that may be there.
#[derive(Drop)]
pub(crate) struct Group {
    handles: Vec<Handle>,
}

impl Model for Group {
    ghost use Rattle.std.specs.Prelude.{List, ◌≤◌, vec_capacity};
    ghost use Rattle.wc_text.specs.declared.names.Handle.{Handle};

    ghost Value = { List Handle };

    ghost view = { λ a. a.handles.items };

    ghost invariant = { λ a. 256 ≤ vec_capacity a.handles };
}

impl Group {
    /// An empty group.
    pub(crate) fn new(alloc: Global) -> Result<Group, NoMemory>
        ensures { IfOk result (λ group. group ≡ []) }
    {
        let handles = Vec::with_capacity(alloc, MOST_BUFFERS)?;
        Ok(Group { handles })
    }

    pub(crate) fn as_slice(&self) -> &[Handle]
        ensures { result.now ≡ self.now }
    {
        self.handles.as_slice()
    }

    pub(crate) fn len(&self) -> usize
        ensures { result ≡ length self.now }
    {
        self.handles.len()
    }

    pub(crate) fn has(&self, h: Handle) -> bool
        ensures { result ≡ in_group key h.0 self.now }
    {
        self.handles.iter().any(|other| other.0 == h.0)
    }

    /// Puts a buffer after the others. It takes no memory.
    pub(crate) fn push(&mut self, h: Handle)
        requires { length self.old < 256 }
        ensures { self.new ≡ self.old ++ h ∷ [] }
    {
        self.handles.push_reserved(h);
    }

    /// Takes a buffer out.
    pub(crate) fn remove(&mut self, h: Handle)
        ensures { self.new ≡ without key h.0 self.old }
    {
        remove_from(&mut self.handles, h);
    }
}

fn remove_from(handles: &mut Vec<Handle>, h: Handle)
    ensures handles { handles.new.items ≡ without key h.0 handles.old.items }
    ensures room { vec_capacity handles.new ≡ vec_capacity handles.old }
{
    handles.retain(|other| other.0 != h.0);
}
