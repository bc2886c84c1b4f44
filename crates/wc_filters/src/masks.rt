ghost use Rattle.std.specs.Prelude.{◌≡◌};
ghost use Rattle.wc_filters.specs.Masks.{buffers_match, tags_match, is_wanted, is_chosen, only_excludes};
ghost use Rattle.wc_filters.specs.Masks.{wants, is_excluded, excludes, is_exclusion, mask_holds, masks_hold, item_holds};
ghost use Rattle.wc_filters.specs.Parts.{tags_in};

use crate::line_parts::Tags;
use wc_text::mask_matches;

/// Whether the masks of a filter, which commas part, have the buffer of this full name: some mask
/// without a leading `!` matches it, or there is none such, and no mask with one does. Case is kept.
#[tactic(auto, unfolding(crate::specs::Masks::buffers_match))]
pub fn buffers_match(masks: &[u8], full_name: &[u8]) -> bool
    ensures { result ≡ buffers_match masks.now full_name.now }
{
    is_wanted(masks, full_name) && !is_excluded(masks, full_name)
}

fn is_wanted(masks: &[u8], full_name: &[u8]) -> bool
    ensures { result ≡ is_wanted masks.now full_name.now }
{
    is_chosen(masks, full_name) || only_excludes(masks)
}

/// Whether some mask without a leading `!` matches.
fn is_chosen(masks: &[u8], full_name: &[u8]) -> bool
    ensures { result ≡ is_chosen masks.now full_name.now }
{
    masks
        .split(|b| *b == b',')
        .any(|mask| wants(mask, full_name))
}

/// Whether each mask has a leading `!`.
fn only_excludes(masks: &[u8]) -> bool
    ensures { result ≡ only_excludes masks.now }
{
    masks.split(|b| *b == b',').all(|mask| is_exclusion(mask))
}

fn is_excluded(masks: &[u8], full_name: &[u8]) -> bool
    ensures { result ≡ is_excluded masks.now full_name.now }
{
    masks
        .split(|b| *b == b',')
        .any(|mask| excludes(mask, full_name))
}

/// Whether it is a mask with a leading `!`.
fn is_exclusion(mask: &[u8]) -> bool
    ensures { result ≡ is_exclusion mask.now }
{
    match mask {
        [b'!', ..] => true,
        _ => false,
    }
}

/// Whether it is a mask without a leading `!`, and matches.
fn wants(mask: &[u8], full_name: &[u8]) -> bool
    ensures { result ≡ wants mask.now full_name.now }
{
    !is_exclusion(mask) && mask_matches(mask, full_name, false)
}

/// Whether it is a mask with a leading `!`, and what comes after it matches.
fn excludes(mask: &[u8], full_name: &[u8]) -> bool
    ensures { result ≡ excludes mask.now full_name.now }
{
    match mask {
        [b'!', mask @ ..] => mask_matches(mask, full_name, false),
        _ => false,
    }
}

/// Whether some item, of those that commas part, holds of a line with these tags: the item `*`
/// always, another where each of its masks does, which plus signs part. A mask holds where it
/// matches some tag, and one with a leading `!` where what comes after that matches none. Case is
/// ignored.
pub fn tags_match(items: &[u8], tags: Tags<'_>) -> bool
    ensures { result ≡ tags_match items.now (tags_in tags.entry) }
{
    items
        .split(|b| *b == b',')
        .any(|item| item_holds(item, tags))
}

fn item_holds(item: &[u8], tags: Tags<'_>) -> bool
    ensures { result ≡ item_holds item.now (tags_in tags.entry) }
{
    item == b"*".as_slice() || masks_hold(item, tags)
}

fn masks_hold(item: &[u8], tags: Tags<'_>) -> bool
    ensures { result ≡ masks_hold item.now (tags_in tags.entry) }
{
    item.split(|b| *b == b'+')
        .all(|mask| mask_holds(mask, tags))
}

fn mask_holds(mask: &[u8], tags: Tags<'_>) -> bool
    ensures { result ≡ mask_holds mask.now (tags_in tags.entry) }
{
    match mask {
        [b'!', mask @ ..] => !tags.has(mask),
        _ => tags.has(mask),
    }
}
