//! Laws over what a run hands out. Their functions do nothing.

ghost use Rattle.wc_loop.specs.Cuts.{SpellAlike, CutAnywhere};

/// Runs whose happenings spell the same events take the same ones, end in the same world, and owe
/// each link the same bytes, also where `/quit` was run. A read spells the same events however it
/// is cut.
pub fn cuts_change_nothing()
    ensures alike { SpellAlike }
    ensures cut { CutAnywhere }
{}
