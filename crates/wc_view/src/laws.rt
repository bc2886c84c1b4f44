//! What holds of each mirror of the lines of a world.
//! What holds of each mirror of the nicklists of a world.
ghost use Rattle.wc_view.specs.BufferViews.{BufferDumpShows, BufferNoticeShows, BufferTrimShows};
ghost use Rattle.wc_view.specs.BufferViews.{BufferFlagShows};
ghost use Rattle.wc_view.specs.NickViews.{NickDumpShows, NickNoticeShows, NickTrimShows, PushShows};
ghost use Rattle.wc_view.specs.NickViews.{NickFlagShows};
ghost use Rattle.wc_view.specs.Views.{DumpShows, NoticeShows};

/// After the reply to the line dump a client has the lines of the world.
pub fn dump_shows_world()
    ensures { DumpShows }
{}

/// A client that has the lines of a world has those of the world after a change after the events of
/// the change, those of lines whose flags differ too: with those of lines that went where it keeps no
/// limit of its own, and without them where it keeps that of the world, which stays.
pub fn notice_shows_world()
    ensures { NoticeShows }
{}

/// After the reply to the buffer dump a client has the buffers of the world in their groups.
pub fn dump_shows_buffers()
    ensures { BufferDumpShows }
{}

/// A client that has the buffers of a world has those of the world after a change after the event
/// of the change.
pub fn notice_shows_buffers()
    ensures { BufferNoticeShows }
{}

/// After the reply to the nicklist dump a client has the nicklists of the world.
pub fn dump_shows_nicks()
    ensures { NickDumpShows }
{}

/// A client that has the rows that were told has those that are told after a change after the event
/// of the change.
pub fn notice_shows_nicks()
    ensures { NickNoticeShows }
{}

/// A client that has the rows that were told of a buffer has those of now after a push.
pub fn push_shows_nicks()
    ensures { PushShows }
{}

/// The event of lines that went changes neither the buffers nor the nicklists of a client.
pub fn trims_show_lines_alone()
    ensures buffers { BufferTrimShows }
    ensures nicks { NickTrimShows }
{}

/// Nor does that of lines whose flags differ.
pub fn flags_show_lines_alone()
    ensures buffers { BufferFlagShows }
    ensures nicks { NickFlagShows }
{}
