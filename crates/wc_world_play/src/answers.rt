use crate::sheet::Sheet;
use wc_model::{EventKind, Notice, Trim};
use wc_text::Handle;

fn kind_word(kind: EventKind) -> &'static str {
    match kind {
        EventKind::Opened => "opened",
        EventKind::Moved => "moved",
        EventKind::Merged => "merged",
        EventKind::Unmerged => "unmerged",
        EventKind::Hidden => "hidden",
        EventKind::Unhidden => "unhidden",
        EventKind::Renamed => "renamed",
        EventKind::TitleChanged => "title changed",
        EventKind::VarAdded => "variable added",
        EventKind::VarChanged => "variable changed",
        EventKind::VarRemoved => "variable removed",
        EventKind::Cleared => "cleared",
        EventKind::Closing => "closing",
        EventKind::LineAdded => "line added",
        EventKind::LineDataChanged => "lines changed",
        EventKind::Nicklist => "nicklist",
        EventKind::NicklistDiff => "nicklist diff",
        EventKind::NickTouched => "nick touched",
        EventKind::LimitSet => "limit set",
        EventKind::LinesTrimmed => "lines trimmed",
    }
}

fn show_handles(out: &mut Sheet, name: &str, handles: &[Handle]) {
    if handles.is_empty() {
        return;
    }
    out.put(name);
    for handle in handles {
        out.put_number(" ", handle.0);
    }
}

fn show_trims(out: &mut Sheet, trims: &[Trim]) {
    if trims.is_empty() {
        return;
    }
    out.put(", trims");
    for trim in trims {
        out.put_number(" ", trim.buffer.0);
        out.put_number(":", u64::from(trim.count));
    }
}

fn show_place(out: &mut Sheet, notice: &Notice) {
    if notice.buffer.0 == 0 {
        return;
    }
    out.put_number(" ", notice.buffer.0);
    out.put_text(" ", notice.full_name.as_slice());
    out.put_number(", number ", u64::from(notice.number));
    out.put_number(", prev ", notice.prev.0);
    out.put_number(", next ", notice.next.0);
}

/// What is noticed of a change. Where it is of no buffer, its place says nothing and is not shown.
pub fn show_notice(out: &mut Sheet, notice: &Notice) {
    out.put(kind_word(notice.kind));
    show_place(out, notice);
    show_handles(out, ", lines", notice.lines.as_slice());
    show_handles(out, ", flips", notice.flips.as_slice());
    show_trims(out, notice.trims.as_slice());
    out.put("\n");
}
