//! The entries that are marked as running.
ghost use Rattle.std.specs.Prelude.{◌≡◌, ◌<◌, is_some, IsTrue};
ghost use Rattle.std.specs.Vec.{vec_capacity, vec_len};
ghost use Rattle.wc_hooks.specs.Passes.{runs, with_given, without_mark};

use crate::entry::{Entry, HookId, Owner};

/// Whether some entry of this owner is marked.
pub fn runs(marks: &[Entry], owner: Owner) -> bool
    ensures { result ≡ runs owner marks.now }
{
    marks.iter().any(|mark| mark.owner.is_same(owner))
}

/// Marks the entry that was given, if one was.
pub fn mark_given(marks: &mut Vec<Entry>, given: Option<Entry>)
    requires { IsTrue (is_some given) → vec_len marks.old < vec_capacity marks.old }
    ensures marks { marks.new.items ≡ with_given given marks.old.items }
    ensures capacity { vec_capacity marks.new ≡ vec_capacity marks.old }
{
    if let Some(entry) = given {
        marks.push_reserved(entry);
    }
}

/// Takes the mark of the entry with this number away.
pub fn unmark(marks: &mut Vec<Entry>, id: HookId)
    ensures marks { marks.new.items ≡ without_mark id marks.old.items }
    ensures capacity { vec_capacity marks.new ≡ vec_capacity marks.old }
{
    marks.retain(|mark| mark.id != id);
}
