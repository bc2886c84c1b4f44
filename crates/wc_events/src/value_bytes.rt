//! Values as bytes of a message, without their objects: what each leaves of a room, and each put
//! after the bytes that are in a buffer.

ghost use Rattle.std.specs.Prelude.{◌≡◌, ◌+◌, ◌<◌, ◌≤◌, ◌++◌, ◌∷◌, [], length};
ghost use Rattle.std.specs.Prelude.{MatchOption};
ghost use Rattle.std.specs.List.{flat_map};
ghost use Rattle.wc_buffers.specs.Vars.{pair};
ghost use Rattle.wc_events.specs.BufferObjects.{table};
ghost use Rattle.wc_events.specs.LentValues.{object_of};
ghost use Rattle.wc_events.specs.LineObjects.{texts};
ghost use Rattle.wc_events.specs.ValueBytes.{tag_bytes, var_bytes};
ghost use Rattle.wc_objects.specs.Spelling.{FitsIn, HasRoomFor, Puts, value_bytes, with_count};
ghost use Rattle.wc_objects.specs.declared.kind.Kind.TheVariants as kinds;
ghost use Rattle.wc_objects.specs.declared.object.Object.TheVariants as objects;

use crate::lent_value::LentValue;
use bytes::BytesMut;
use wc_buffers::Vars;
use wc_lines::PackedLine;
use wc_objects::Kind;
use wc_objects::parts::{
    put_bytes, put_chr, put_count, put_decimal, put_kind, put_pointer, room_after_bytes,
    room_after_decimal, room_after_pointer,
};
use wc_text::Text;

// ---- what each leaves of a room

/// What is left after each tag. They lie as they are written.
#[inline(always)]
#[tactic(auto, using(crate::proofs::ValueBytes::spelled_length))]
fn room_after_each_tag(room: usize, line: &PackedLine) -> Option<usize>
    ensures { FitsIn result room (flat_map tag_bytes line.now.tags) }
{
    room.checked_sub(line.spelled_tags().len())
}

/// What is left after the tags of a line.
#[tactic(auto, using(crate::proofs::ValueBytes::value_facts))]
pub(crate) fn room_after_tags(room: usize, line: &PackedLine) -> Option<usize>
    ensures { FitsIn result room (value_bytes (objects.Arr kinds.Str (texts line.now.tags))) }
{
    room_after_each_tag(room.checked_sub(7)?, line)
}

fn room_after_var(room: usize, name: &Text, value: &Text) -> Option<usize>
    ensures { FitsIn result room (var_bytes (pair name.now value.now)) }
{
    room_after_bytes(room_after_bytes(room, name.as_slice())?, value.as_slice())
}

fn room_after_each_var(room: usize, vars: &Vars) -> Option<usize>
    ensures { FitsIn result room (flat_map var_bytes vars.now) }
{
    let mut left = room;
    for (name, value) in vars.iter() {
        left = room_after_var(left, name, value)?;
    }
    Some(left)
}

/// What is left after the variables of a buffer.
#[tactic(auto, using(crate::proofs::ValueBytes::value_facts))]
fn room_after_table(room: usize, vars: &Vars) -> Option<usize>
    ensures { FitsIn result room (value_bytes (table vars.now)) }
{
    room_after_each_var(room.checked_sub(10)?, vars)
}

// ---- each put after the bytes that are in a buffer

/// Puts each tag. They lie as they are written.
#[inline(always)]
#[tactic(auto, using(crate::proofs::ValueBytes::spelled_length))]
fn put_each_tag(out: &mut BytesMut, line: &PackedLine)
    requires { HasRoomFor out.old (flat_map tag_bytes line.now.tags) }
    ensures { Puts out.old out.new (flat_map tag_bytes line.now.tags) }
{
    out.extend_reserved(line.spelled_tags());
}

fn put_counted_tags(out: &mut BytesMut, line: &PackedLine)
    requires { HasRoomFor out.old (with_count tag_bytes line.now.tags) }
    ensures { Puts out.old out.new (with_count tag_bytes line.now.tags) }
{
    put_count(out, line.tags_len());
    put_each_tag(out, line);
}

/// Puts the tags of a line.
#[tactic(auto, using(crate::proofs::ValueBytes::value_facts))]
pub(crate) fn put_tags(out: &mut BytesMut, line: &PackedLine)
    requires { HasRoomFor out.old (value_bytes (objects.Arr kinds.Str (texts line.now.tags))) }
    ensures { Puts out.old out.new (value_bytes (objects.Arr kinds.Str (texts line.now.tags))) }
{
    put_kind(out, Kind::Str);
    put_counted_tags(out, line);
}

fn put_var(out: &mut BytesMut, name: &Text, value: &Text)
    requires { HasRoomFor out.old (var_bytes (pair name.now value.now)) }
    ensures { Puts out.old out.new (var_bytes (pair name.now value.now)) }
{
    put_bytes(out, name.as_slice());
    put_bytes(out, value.as_slice());
}

fn put_each_var(out: &mut BytesMut, vars: &Vars)
    requires { HasRoomFor out.old (flat_map var_bytes vars.now) }
    ensures { Puts out.old out.new (flat_map var_bytes vars.now) }
{
    for (name, value) in vars.iter() {
        put_var(out, name, value);
    }
}

fn put_counted_vars(out: &mut BytesMut, vars: &Vars)
    requires { HasRoomFor out.old (with_count var_bytes vars.now) }
    ensures { Puts out.old out.new (with_count var_bytes vars.now) }
{
    put_count(out, vars.len());
    put_each_var(out, vars);
}

/// Puts the variables of a buffer.
#[tactic(auto, using(crate::proofs::ValueBytes::value_facts))]
fn put_table(out: &mut BytesMut, vars: &Vars)
    requires { HasRoomFor out.old (value_bytes (table vars.now)) }
    ensures { Puts out.old out.new (value_bytes (table vars.now)) }
{
    put_kind(out, Kind::Str);
    put_kind(out, Kind::Str);
    put_counted_vars(out, vars);
}

// ---- values

// These two and what gives a value are inlined where they are called. So a value is not laid in
// memory by the one and loaded by the other, which is most of what a short value costs.
impl<'a> LentValue<'a> {
    /// What is left of a room after the value. None where it is longer.
    #[inline(always)]
    #[tactic(auto, using(crate::proofs::ValueBytes::value_facts))]
    pub fn room_after(self, room: usize) -> Option<usize>
        ensures { FitsIn result room (value_bytes (object_of self.entry)) }
    {
        match self {
            LentValue::Int(_) => room.checked_sub(4),
            LentValue::Chr(_) => room.checked_sub(1),
            LentValue::Ptr(pointer) => room_after_pointer(room, pointer),
            LentValue::Tim(seconds) => room_after_decimal(room, seconds),
            LentValue::Str(bytes) => room_after_bytes(room, bytes),
            LentValue::Tags(line) => room_after_tags(room, line),
            LentValue::Vars(vars) => room_after_table(room, vars),
        }
    }

    /// Puts the value after the bytes that are in a buffer.
    #[inline(always)]
    #[tactic(auto, using(crate::proofs::ValueBytes::value_facts))]
    pub fn put(self, out: &mut BytesMut)
        requires { HasRoomFor out.old (value_bytes (object_of self)) }
        ensures { Puts out.old out.new (value_bytes (object_of self.entry)) }
    {
        match self {
            LentValue::Int(number) => out.extend_reserved(&number.to_be_bytes()),
            LentValue::Chr(number) => put_chr(out, number),
            LentValue::Ptr(pointer) => put_pointer(out, pointer),
            LentValue::Tim(seconds) => put_decimal(out, seconds),
            LentValue::Str(bytes) => put_bytes(out, bytes),
            LentValue::Tags(line) => put_tags(out, line),
            LentValue::Vars(vars) => put_table(out, vars),
        }
    }
}
