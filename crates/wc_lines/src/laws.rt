//! What holds of the lines of a buffer after any calls.

ghost use Rattle.wc_lines.specs.History.{HeldIsLast};

/// After any calls the lines are those that were pushed since the last clear without the oldest that
/// were dropped, and every push was counted. A clear sets the number of dropped lines to 0. A push
/// and a change of the limit raise it by as much as the lines that are held pass the limit.
pub fn held_is_last()
    ensures { HeldIsLast }
{}
