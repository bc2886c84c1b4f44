ghost use Rattle.std.specs.Prelude.{◌≡◌, ◌+◌, ◌<◌, ◌≤◌, ◌++◌, ◌∷◌, [], map, take, length, IfSome};
ghost use Rattle.mio.specs.Events.{items};
ghost use Rattle.wc_outside.specs.Happenings.{IsThere};
ghost use Rattle.wc_edge.specs.Rows.{number_of, is_there, IsAscending, SourcesReported};
ghost use Rattle.wc_edge.specs.Sources.{source_of, sources_of};

use crate::rows::{Row, place_of, set_row};
use crate::streams::{LISTENER, Peer};
use mio::Events;
use mio::event::Event;
use wc_outside::{Ready, Token};
use wc_text::LinkId;

/// Puts a source after those that are reported.
fn add(ready: &mut Ready, source: Token)
    requires { ready.old.count < 64 }
    ensures count { ready.new.count ≡ ready.old.count + 1 }
    ensures tokens { take ready.new.count ready.new.tokens ≡ take ready.old.count ready.old.tokens
        ++ source ∷ [] }
{
    ready.tokens[ready.count] = source;
    ready.count += 1;
}

/// Notes that a source is reported: it is not drained, and not blocked.
fn mark(rows: &mut [Row], listening: &mut bool, source: Token)
    requires ascending { IsAscending (map number_of rows.old) }
    requires there { IsThere (is_there rows.old) source }
    ensures { SourcesReported rows.old rows.new listening.old listening.new (source ∷ []) }
{
    match source {
        Token::Listener => *listening = true,
        Token::Link(link) => {
            if let Some(place) = place_of(rows, link) {
                set_row(rows, place, link, true, false);
            }
        }
    }
}

/// The source of an event, where it is still there. Notes what the event says of reading a link.
#[tactic(auto, using(crate::proofs::RowLemmas::placed_alone))]
fn source_of(rows: &[Row], peers: &mut [Peer], event: &Event) -> Option<Token>
    requires { IsAscending (map number_of rows.now) }
    ensures there { IfSome result (IsThere (is_there rows.now)) }
    ensures source { result ≡ source_of (is_there rows.now) event.now }
{
    if event.token().0 == LISTENER {
        return Some(Token::Listener);
    }
    let link = LinkId(event.token().0 as u64);
    let place = place_of(rows, link)?;
    if let Some(peer) = peers.get_mut(place) {
        peer.note(event);
    }
    Some(Token::Link(link))
}

/// Reports the source of each event that was fetched, in their order. Only events of closed links
/// are passed over.
pub(crate) fn report(
    events: &Events,
    rows: &mut [Row],
    peers: &mut [Peer],
    listening: &mut bool,
    ready: &mut Ready,
)
    requires few { length (items events.now) ≤ 64 }
    requires ascending { IsAscending (map number_of rows.old) }
    ensures reported { SourcesReported rows.old rows.new listening.old listening.new
        (take ready.new.count ready.new.tokens) }
    ensures handed { take ready.new.count ready.new.tokens
        ≡ sources_of (is_there rows.old) (items events.now) }
{
    ready.count = 0;
    for event in events.iter() {
        if let Some(source) = source_of(rows, peers, event) {
            mark(rows, listening, source);
            add(ready, source);
        }
    }
}
