//! Laws of the grammar and of the dumps. There is nothing to run in them.
ghost use Rattle.std.specs.Prelude.{◌≡◌, ℕ, true, List, [], ◌∷◌, None, Some};
ghost use Rattle.wc_buffers.specs.Kept.{AreBuffers};
ghost use Rattle.wc_model.specs.World.{World};
ghost use Rattle.wc_events.specs.BufferObjects.{buffer_dump};
ghost use Rattle.wc_events.specs.LineObjects.{line_dump};
ghost use Rattle.wc_hdata.specs.declared.path.Path.{Path};
ghost use Rattle.wc_hdata.specs.Answers.{path_of};
ghost use Rattle.wc_hdata.specs.Dumps.{AreShort, buffers_keys, buffers_path, buffers_text};
ghost use Rattle.wc_hdata.specs.Dumps.{lines_keys, lines_path, lines_text};
ghost use Rattle.wc_hdata.specs.Hdata.{walk_object};
ghost use Rattle.wc_hdata.specs.Paths.{SpellsPath};
ghost use Rattle.wc_hdata.specs.Refusals.{walk_refusal};
ghost use Rattle.wc_hdata.specs.Sound.{IsSound};
ghost use Rattle.wc_objects.specs.Forms.{well_formed};
ghost use Rattle.wc_objects.specs.Within.{ObjectWithin};

/// A text spells one path at most.
pub fn one_path()
    ensures { (text : List ℕ) (a b : Path) → SpellsPath text a → SpellsPath text b → a ≡ b }
{}

/// The paths to all buffers and to all of their lines, as they are written.
pub fn dump_paths()
    ensures buffers { path_of buffers_text ≡ Some buffers_path }
    ensures lines { path_of lines_text ≡ Some lines_path }
{}

/// The walk of all buffers is their dump.
pub fn buffer_dump_is_walk()
    ensures { (world : World) → AreBuffers world.groups →
        walk_object world buffers_path buffers_keys ∷ [] ≡ buffer_dump world.groups }
{}

/// The walk of all lines is their dump.
pub fn line_dump_is_walk()
    ensures { (world : World) → AreBuffers world.groups →
        walk_object world lines_path lines_keys ∷ [] ≡ line_dump world }
{}

/// The walks of the dumps are never refused for the pointers that they give.
pub fn dumps_give_few_pointers()
    ensures buffers { (world : World) → AreBuffers world.groups →
        walk_refusal world buffers_path ≡ None }
    ensures lines { (world : World) → AreBuffers world.groups → AreShort world →
        walk_refusal world lines_path ≡ None }
{}

/// What a path leads to keeps the rules of messages in a sound world, and each number in it is one
/// of its type.
pub fn walks_are_sound()
    ensures formed { (world : World) (path : Path) (keys : List ℕ) → IsSound world →
        well_formed (walk_object world path keys ∷ []) ≡ true }
    ensures within { (world : World) (path : Path) (keys : List ℕ) → IsSound world →
        ObjectWithin (walk_object world path keys) }
{}
