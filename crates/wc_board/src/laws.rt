//! Laws over the clauses of the calls. Their functions do nothing.

ghost use Rattle.std.specs.Prelude.{◌≡◌, ℕ, List, None};
ghost use Rattle.wc_buffers.specs.Kept.{AreBuffers};
ghost use Rattle.wc_nickdiff.specs.Held.{OfBuffer};
ghost use Rattle.wc_nicklist.specs.declared.item.Row.{Row};
ghost use Rattle.wc_model.specs.declared.change.Change.{Change};
ghost use Rattle.wc_model.specs.Apply.{refusal, after};
ghost use Rattle.wc_model.specs.Touches.{told_after};
ghost use Rattle.wc_model.specs.World.{World, rows_at};
ghost use Rattle.wc_board.specs.BoardView.{NoStrayTouches};
ghost use Rattle.wc_board.specs.Pushes.{AreHeld};
ghost use Rattle.wc_board.specs.Told.{Told, told_of, AllPushed, AreTold, AreTouched};

/// An accepted change keeps the rows that were told, but for those of a buffer that came, of which
/// none were told, and of one that went. The buffers after it are buffers that a world can hold.
pub fn tell_keeps_told()
    ensures { (world : World) (change : Change) (old new : List OfBuffer) (told : Told) →
        refusal world change ≡ None → AreBuffers (after world change).groups →
        NoStrayTouches world old → AreTouched world change old new →
        AreTold world old (told_of told) →
        AreTold (after world change) new
        (told_of (told_after world change.buffer change.what told)) }
{}

/// Where nothing was touched since the last push, the rows that were told are the rows.
pub fn push_tells_rows()
    ensures are { (world : World) (pending : List OfBuffer) → AreHeld world →
        AllPushed pending → AreTold world pending (rows_at world) }
    ensures only { (world : World) (pending : List OfBuffer) (told : ℕ → List Row) →
        AreHeld world → AllPushed pending → AreTold world pending told → (buffer : ℕ) →
        told buffer ≡ rows_at world buffer }
{}
