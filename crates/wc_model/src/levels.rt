ghost use Rattle.std.specs.Prelude.{◌≡◌};
ghost use Rattle.wc_model.specs.Levels.{has_tag, highlight_of, level_of_tags, notify_of};

use wc_text::Text;

/// How much a line is worth a user's notice.
#[derive(Clone, Copy, Debug, PartialEq, Eq)]
pub struct LineLevels {
    pub highlight: bool,
    /// From -1 for none to 3.
    pub notify: i8,
}

fn has_tag(tags: &[Text], tag: &[u8]) -> bool
    ensures { result ≡ has_tag tag.now tags.now }
{
    tags.iter().any(|other| tag == other.as_slice())
}

#[tactic(auto, unfolding(crate::specs::Levels::highlight_of))]
fn is_highlight(tags: &[Text], calls_user: bool) -> bool
    ensures { result ≡ highlight_of tags.now calls_user }
{
    !has_tag(tags, b"no_highlight") && (has_tag(tags, b"notify_highlight") || calls_user)
}

fn level_of_tags(tags: &[Text]) -> i8
    ensures { result ≡ level_of_tags tags.now }
{
    if has_tag(tags, b"notify_none") {
        -1
    } else if has_tag(tags, b"notify_message") {
        1
    } else if has_tag(tags, b"notify_private") {
        2
    } else {
        0
    }
}

/// The levels of a line with these tags, where it is known whether it calls the user by name. It
/// is highlighted where it does or has `notify_highlight`, and with `no_highlight` never. Its level
/// of notification is 3 with a highlight, and else -1, 1 or 2 by the first of `notify_none`,
/// `notify_message` and `notify_private` that it has, in this order, or 0 without one.
#[tactic(auto, unfolding(crate::specs::Levels::notify_of))]
pub fn levels_of(tags: &[Text], calls_user: bool) -> LineLevels
    ensures highlight { result.highlight ≡ highlight_of tags.now calls_user }
    ensures notify { result.notify ≡ notify_of tags.now calls_user }
{
    let highlight = is_highlight(tags, calls_user);
    let notify = if highlight { 3 } else { level_of_tags(tags) };
    LineLevels { highlight, notify }
}
