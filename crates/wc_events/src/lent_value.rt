ghost use Rattle.std.specs.Prelude.{◌≡◌, IfOk};
ghost use Rattle.wc_events.specs.LentValues.{object_of};

use crate::values::{table, tags, text_of};
use std::alloc::Global;
use wc_buffers::Vars;
use wc_lines::PackedLine;
use wc_objects::Object;
use wc_text::NoMemory;

/// The value of a key, lent by what has it. It takes no memory, so that it can be written without
/// its object.
#[derive(Clone, Copy)]
pub enum LentValue<'a> {
    Int(i32),
    Chr(i8),
    Ptr(u64),
    /// In seconds since 1970.
    Tim(i64),
    Str(&'a [u8]),
    /// An array of the tags of a line.
    Tags(&'a PackedLine),
    /// A table of the variables of a buffer.
    Vars(&'a Vars),
}

impl<'a> LentValue<'a> {
    /// The object of the value.
    pub fn object(self, alloc: Global) -> Result<Object, NoMemory>
        ensures { IfOk result (λ object. object ≡ object_of self.entry) }
    {
        match self {
            LentValue::Int(number) => Ok(Object::Int(number)),
            LentValue::Chr(number) => Ok(Object::Chr(number)),
            LentValue::Ptr(pointer) => Ok(Object::Ptr(pointer)),
            LentValue::Tim(seconds) => Ok(Object::Tim(seconds)),
            LentValue::Str(bytes) => text_of(alloc, bytes),
            LentValue::Tags(line) => tags(alloc, line),
            LentValue::Vars(vars) => table(alloc, vars),
        }
    }
}
