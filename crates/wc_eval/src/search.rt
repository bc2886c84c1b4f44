ghost use Rattle.std.specs.Prelude.{◌≡◌, IfOk};
ghost use Rattle.regex.specs.Strings.{regex_source};
ghost use Rattle.wc_eval.specs.Matching.{is_found, all_groups_in};
ghost use Rattle.wc_eval.specs.Built.{IsBuiltOf};

use regex::{CaptureLocations, Regex};
use std::alloc::Global;
use wc_text::{Items, NoMemory};

/// What a group of a match spans, if it took part.
pub type Span = Option<(usize, usize)>;

/// Whether a text has a match of a pattern.
pub fn is_match(alloc: Global, regex: &Regex, text: &str) -> Result<bool, NoMemory>
    requires { IsBuiltOf (regex_source regex.now) regex.now }
    ensures { IfOk result (λ found. found ≡ is_found (regex_source regex.now) text.now) }
{
    let mut matcher = regex.matcher(alloc)?;
    Ok(matcher.is_match(text))
}

/// What the groups span whose places were found.
fn spans(alloc: Global, locations: &CaptureLocations) -> Result<Items<Span>, NoMemory>
    ensures { IfOk result (λ spans. spans ≡ locations.now.spans.items) }
{
    let mut spans = Items::new(alloc);
    for n in 0..locations.len() {
        spans.push(locations.get(n))?;
    }
    Ok(spans)
}

/// For each match of a pattern, from the left, what it spans and what each of its groups spans.
pub fn all_groups(alloc: Global, regex: &Regex, text: &str) -> Result<Items<Items<Span>>, NoMemory>
    requires { IsBuiltOf (regex_source regex.now) regex.now }
    ensures { IfOk result (λ groups. groups ≡ all_groups_in (regex_source regex.now) text.now) }
{
    let mut matcher = regex.matcher(alloc)?;
    let mut locations = regex.capture_locations(alloc)?;
    let mut groups = Items::new(alloc);
    let mut all = matcher.captures_iter(text);
    'matches: while let Some(_) = all.next_read(&mut locations) {
        groups.push(spans(alloc, &locations)?)?;
    }
    Ok(groups)
}
