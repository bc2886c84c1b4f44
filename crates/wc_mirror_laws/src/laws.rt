//! What each client that settled holds: in one form with a mirror that keeps no limit of lines of its
//! own, of a client that asked for the events of lines that went, and in the other with one that keeps
//! the limit of the world, of a client that did not ask for them. In the second form that limit was never
//! changed up to the end of a run, and in one step it is not changed by this step.

ghost use Rattle.wc_mirror_laws.specs.Bytes.{BuffersShow, BytesShow, NicksShow, RunSpells};
ghost use Rattle.wc_mirror_laws.specs.Bytes.{SpellOnce};
ghost use Rattle.wc_mirror_laws.specs.Example.{ThreeLinesSettle, ThreeLinesSettleBuffers};
ghost use Rattle.wc_mirror_laws.specs.Example.{ThreeLinesSettleNicks};
ghost use Rattle.wc_mirror_laws.specs.Held.{Lines, Buffers, Nicks};
ghost use Rattle.wc_mirror_laws.specs.Mirrors.{Mirrors, StepMirrors, DumpMirrors, StepKeeps};
ghost use Rattle.wc_mirror_laws.specs.Mirrors.{RunKeeps, ChangeKeeps, MadeKeeps, ChangeMirrors};
ghost use Rattle.wc_mirror_laws.specs.Mirrors.{PushKeeps, PushMirrors, TickTells, ListsFit, FiltersKeep, RunMeans};
ghost use Rattle.wc_mirror_laws.specs.Replies.{GetsOneReply};

/// A client that settled has exactly the lines of each buffer after any events, and none of a
/// buffer that is not there, by the messages that it was sent. Where it asked for the events of lines
/// that went this is so however often the limit of lines was changed.
pub fn settled_client_has_lines()
    ensures { Mirrors Lines }
{}

/// A client that settled by the buffer dump has exactly the buffers in their groups after any
/// events, by the messages that it was sent.
pub fn settled_client_has_buffers()
    ensures { Mirrors Buffers }
{}

/// A client that settled by the nicklists has exactly the nicklist of each buffer after any events,
/// as it was last told, under the root of the buffer, by the messages that it was sent, and no diff
/// that it was sent is refused.
pub fn settled_client_has_nicks()
    ensures { Mirrors Nicks }
{}

/// A client that settled by the line dump has the lines by the bytes that it was sent, which spell
/// these messages and no others.
pub fn sent_bytes_show_lines()
    ensures shows { BytesShow }
    ensures spells { RunSpells }
    ensures once { SpellOnce }
{}

/// A client that settled by the buffer dump has the buffers by the bytes that it was sent.
pub fn sent_bytes_show_buffers()
    ensures { BuffersShow }
{}

/// A client that settled by the nicklists has them by the bytes that it was sent.
pub fn sent_bytes_show_nicks()
    ensures { NicksShow }
{}

/// A client that has the lines of all buffers has them still after one event, and one that takes the
/// dump has them after it: without a limit of its own whatever limit of lines was set, and with that of
/// the world before where the event does not set it.
pub fn event_keeps_lines()
    ensures kept { StepMirrors Lines }
    ensures dump { DumpMirrors Lines }
{}

/// A client that has the buffers has them still after one event, and one that takes the buffer dump
/// has them after it.
pub fn event_keeps_buffers()
    ensures kept { StepMirrors Buffers }
    ensures dump { DumpMirrors Buffers }
{}

/// A client that has the nicklists has them still after one event, and one that takes those of all
/// buffers has them after it.
pub fn event_keeps_nicks()
    ensures kept { StepMirrors Nicks }
    ensures dump { DumpMirrors Nicks }
{}

/// What the core always keeps of its buffers, lines, nicklists and clients, of the flag of each line,
/// which is the one that the filters give, and of the hotlist.
pub fn core_keeps()
    ensures event { StepKeeps }
    ensures run { RunKeeps }
    ensures change { ChangeKeeps }
    ensures made { MadeKeeps }
    ensures filters { FiltersKeep }
    ensures push { PushKeeps }
{}

/// What the hotlist means: at the start no lines, and in each state that a run comes through those of
/// the state before, with the line that was printed, and without those that were taken out.
pub fn hotlist_means_lines()
    ensures { RunMeans }
{}

/// A client that has a part has it still after any change that is told, of flags of lines, of a
/// nicklist and of the limit of lines too; a limit of its own is that of the world before and after.
pub fn change_keeps_parts()
    ensures lines { ChangeMirrors Lines }
    ensures buffers { ChangeMirrors Buffers }
    ensures nicks { ChangeMirrors Nicks }
{}

/// A client that has a part has it still after pushes, and of nicklists the rows of now, as at each
/// tick. No push is too long to be sent, nor is the list of all nicklists.
pub fn push_keeps_parts()
    ensures lines { PushMirrors Lines }
    ensures buffers { PushMirrors Buffers }
    ensures nicks { PushMirrors Nicks }
    ensures tick { TickTells }
    ensures fits { ListsFit }
{}

/// A client that logs in, asks for all events and takes the dump of a part has settled by it, for each
/// of the two kinds of mirrors.
pub fn three_lines_settle()
    ensures lines { ThreeLinesSettle }
    ensures buffers { ThreeLinesSettleBuffers }
    ensures nicks { ThreeLinesSettleNicks }
{}

/// Each request that is served and has a reply gets exactly one, and no other gets any.
pub fn each_request_gets_one_reply()
    ensures { GetsOneReply }
{}
