//! What holds of every world.

ghost use Rattle.wc_model.specs.Laws.{LinesLeaveBuffers, NoticeOfNewBuffer};

/// Changes of lines leave the buffers as they are.
pub fn lines_leave_buffers()
    ensures { LinesLeaveBuffers }
{}

/// What is noticed of a new buffer names it by the handle that it drew.
pub fn notice_of_new_buffer()
    ensures { NoticeOfNewBuffer }
{}
