ghost use Rattle.std.specs.Prelude.{◌≡◌, ◌+◌, ◌<◌, ◌++◌, ◌∷◌, ◌&&◌, not, [], take, length};
ghost use Rattle.std.specs.Prelude.{◌||◌, true, false, ℕ, All, vec_len};
ghost use Rattle.std.specs.List.{list_any};
ghost use Rattle.wc_outside.specs.Happenings.{is_link, is_listener, IsThere};
ghost use Rattle.wc_scripted.specs.Plays.{front, found_at, links_below, sources};
ghost use Rattle.wc_scripted.specs.Rows.{row_at, is_fresh_row, Noted, Reported, noted, refilled};
ghost use Rattle.wc_scripted.specs.Rows.{waited};
ghost use Rattle.wc_scripted.specs.Scripts.{is_arrival};

use crate::rows::{Row, note_link, refill};
use crate::scripted::Scripted;
use wc_outside::{READY_LIMIT, Ready, Token};
use wc_text::LinkId;

/// Notes a step that was released.
fn note_step(rows: &mut [Row], arriving: &mut bool, step: &Scripted)
    ensures { Noted rows.old rows.new arriving.old arriving.new (step.now ∷ []) }
{
    match step {
        Scripted::Wake(_) => {}
        Scripted::Arrive(_) => *arriving = true,
        Scripted::Gives(link, bytes) => {
            if !bytes.as_slice().is_empty() {
                note_link(rows, *link);
            }
        }
        Scripted::Stands(link) | Scripted::Ends(link) => note_link(rows, *link),
    }
}

/// Notes the steps that were released: those for a link that is not there yet wait for it.
fn release(rows: &mut [Row], arriving: &mut bool, steps: &[Scripted])
    ensures { Noted rows.old rows.new arriving.old arriving.new steps.now }
{
    for step in steps {
        note_step(rows, arriving, step);
    }
}

/// Puts a source after those that are reported.
fn add(ready: &mut Ready, source: Token)
    requires { ready.old.count < 64 }
    ensures count { ready.new.count ≡ ready.old.count + 1 }
    ensures tokens { take ready.new.count ready.new.tokens ≡ take ready.old.count ready.old.tokens
        ++ source ∷ [] }
{
    ready.tokens[ready.count] = source;
    ready.count += 1;
}

/// Reports the listener, where it has an arrival that was not reported.
fn report_listener(arriving: &mut bool, listening: &mut bool, ready: &mut Ready)
    ensures tokens { take ready.new.count ready.new.tokens ≡ front arriving.old }
    ensures arriving { arriving.new ≡ false }
    ensures listening { listening.new ≡ (listening.old || arriving.old) }
    ensures filled { length (take ready.new.count ready.new.tokens) ≡ ready.new.count }
{
    ready.count = 0;
    if *arriving {
        add(ready, Token::Listener);
        *arriving = false;
        *listening = true;
    }
}

/// Notes that a link was reported: it is not drained, and not blocked.
fn mark(rows: &mut [Row], number: usize)
    requires within { number < length rows.old }
    requires fresh { is_fresh_row (row_at number rows.old) ≡ true }
    ensures reported { Reported rows.old rows.new (Token.Link (record { 0 = number }) ∷ []) }
    ensures others { (link : ℕ) → number < link → row_at link rows.new ≡ row_at link rows.old }
{
    let row = &mut rows[number];
    row.undrained = true;
    row.blocked = false;
    row.news = false;
}

/// Reports a link where it is fresh.
fn report_link(rows: &mut [Row], ready: &mut Ready, number: usize)
    requires within { number < length rows.old }
    requires room { ready.old.count < 64 }
    ensures tokens { take ready.new.count ready.new.tokens ≡ take ready.old.count ready.old.tokens
        ++ found_at (is_fresh_row (row_at number rows.old)) number }
    ensures rows { Reported rows.old rows.new
        (found_at (is_fresh_row (row_at number rows.old)) number) }
    ensures others { (link : ℕ) → number < link → row_at link rows.new ≡ row_at link rows.old }
    ensures filled { length (take ready.old.count ready.old.tokens) ≡ ready.old.count →
        length (take ready.new.count ready.new.tokens) ≡ ready.new.count }
{
    if !rows[number].is_fresh() {
        return;
    }
    mark(rows, number);
    add(ready, Token::Link(LinkId(number as u64)));
}

/// Reports the links that are fresh, as many as fit, from the lowest number on.
fn report_links(rows: &mut [Row], ready: &mut Ready)
    requires reported { Reported rows.old rows.old (take ready.old.count ready.old.tokens) }
    requires filled { length (take ready.old.count ready.old.tokens) ≡ ready.old.count }
    ensures tokens { take ready.new.count ready.new.tokens
        ≡ take 64 (take ready.old.count ready.old.tokens
        ++ links_below (λ link. is_fresh_row (row_at link rows.old)) (length rows.old)) }
    ensures rows { Reported rows.old rows.new (take ready.new.count ready.new.tokens) }
{
    for number in 0..rows.len() {
        if ready.count == READY_LIMIT {
            return;
        }
        report_link(rows, ready, number);
    }
}

/// Reports each source that is fresh, as many as fit: the listener, and then links from the lowest
/// number on. What does not fit stays fresh.
fn report(rows: &mut [Row], arriving: &mut bool, listening: &mut bool, ready: &mut Ready)
    ensures tokens { take ready.new.count ready.new.tokens
        ≡ take 64 (sources arriving.old (λ link. is_fresh_row (row_at link rows.old))
        (length rows.old)) }
    ensures rows { Reported rows.old rows.new (take ready.new.count ready.new.tokens) }
    ensures arriving { arriving.new ≡ (arriving.old
        && not (list_any is_listener (take ready.new.count ready.new.tokens))) }
    ensures listening { listening.new ≡ (listening.old
        || list_any is_listener (take ready.new.count ready.new.tokens)) }
{
    report_listener(arriving, listening, ready);
    report_links(rows, ready);
}

/// Releases steps, gives every link a whole window again, and reports each source that has something
/// new or has room again, as many as fit.
fn report_rows(
    rows: &mut [Row],
    arriving: &mut bool,
    listening: &mut bool,
    steps: &[Scripted],
    ready: &mut Ready,
)
    ensures tokens { take ready.new.count ready.new.tokens
        ≡ take 64 (sources (arriving.old || list_any is_arrival steps.now)
        (λ link. is_fresh_row (noted link steps.now (refilled (row_at link rows.old))))
        (length rows.old)) }
    ensures there { All (IsThere (λ link. (row_at link rows.old).is_open))
        (take ready.new.count ready.new.tokens) }
    ensures rows { (link : ℕ) → row_at link rows.new
        ≡ waited (list_any (is_link link) (take ready.new.count ready.new.tokens)) link steps.now
        (row_at link rows.old) }
    ensures arriving { arriving.new ≡ ((arriving.old || list_any is_arrival steps.now)
        && not (list_any is_listener (take ready.new.count ready.new.tokens))) }
    ensures listening { listening.new ≡ (listening.old
        || list_any is_listener (take ready.new.count ready.new.tokens)) }
{
    refill(rows);
    release(rows, arriving, steps);
    report(rows, arriving, listening, ready);
}

/// The same for all links that there are.
pub(crate) fn report_turn(
    rows: &mut Vec<Row>,
    arriving: &mut bool,
    listening: &mut bool,
    steps: &[Scripted],
    ready: &mut Ready,
)
    ensures tokens { take ready.new.count ready.new.tokens
        ≡ take 64 (sources (arriving.old || list_any is_arrival steps.now)
        (λ link. is_fresh_row (noted link steps.now (refilled (row_at link rows.old.items))))
        (vec_len rows.old)) }
    ensures there { All (IsThere (λ link. (row_at link rows.old.items).is_open))
        (take ready.new.count ready.new.tokens) }
    ensures rows { (link : ℕ) → row_at link rows.new.items
        ≡ waited (list_any (is_link link) (take ready.new.count ready.new.tokens)) link steps.now
        (row_at link rows.old.items) }
    ensures count { vec_len rows.new ≡ vec_len rows.old }
    ensures arriving { arriving.new ≡ ((arriving.old || list_any is_arrival steps.now)
        && not (list_any is_listener (take ready.new.count ready.new.tokens))) }
    ensures listening { listening.new ≡ (listening.old
        || list_any is_listener (take ready.new.count ready.new.tokens)) }
{
    report_rows(rows, arriving, listening, steps, ready);
}
