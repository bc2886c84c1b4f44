ghost use Rattle.std.specs.Prelude.{◌≡◌, ◌+◌, ◌≤◌, ◌<◌, length, take, drop};
ghost use Rattle.wc_scripted.specs.Scripts.{turn_size, next_moment};

use crate::scripted::{Scripted, before_wake};
use wc_text::Items;

/// A script that goes on by one wake at a wait.
#[derive(Drop)]
pub(crate) struct Script {
    pub(crate) steps: Items<Scripted>,
    /// How many steps are released.
    pub(crate) released: usize,
    /// The moment of the last wait, in milliseconds since 1970, or 0.
    pub(crate) moment: u64,
    ghost within: { released ≤ length steps },
}

/// How many of the steps that are to come a wait releases.
fn turn_size(steps: &[Scripted]) -> usize
    ensures size { result ≡ turn_size steps.now }
    ensures within { result ≤ length steps.now }
{
    if steps.is_empty() {
        return 0;
    }
    1 + before_wake(steps.split_at(1).1)
}

/// The moment at which a wait comes back that releases the first of these steps.
fn next_moment(moment: u64, steps: &[Scripted]) -> u64
    ensures { result ≡ next_moment moment steps.now }
{
    match steps {
        [Scripted::Wake(next), ..] => *next,
        _ => moment.saturating_add(100),
    }
}

impl Script {
    pub(crate) fn new(steps: Items<Scripted>) -> Script
        ensures steps { result.steps ≡ steps }
        ensures released { result.released ≡ 0 }
        ensures moment { result.moment ≡ 0 }
    {
        Script {
            steps,
            released: 0,
            moment: 0,
        }
    }

    /// The steps that are released.
    pub(crate) fn ready(&self) -> &[Scripted]
        ensures { result.now ≡ take self.now.released self.now.steps }
    {
        self.steps.as_slice().split_at(self.released).0
    }

    /// The steps that are released, but for the first of them, whose number is this.
    pub(crate) fn since(&self, before: usize) -> &[Scripted]
        requires { before ≤ self.now.released }
        ensures { result.now ≡ drop before (take self.now.released self.now.steps) }
    {
        self.ready().split_at(before).1
    }

    /// Releases the steps of one wait, and gives its moment.
    pub(crate) fn wake(&mut self) -> u64
        ensures steps { self.new.steps ≡ self.old.steps }
        ensures released { self.new.released ≡ self.old.released
            + turn_size (drop self.old.released self.old.steps) }
        ensures moment { result ≡ next_moment self.old.moment
            (drop self.old.released self.old.steps) }
        ensures kept { self.new.moment ≡ result }
    {
        let coming = self.steps.as_slice().split_at(self.released).1;
        self.moment = next_moment(self.moment, coming);
        self.released += turn_size(coming);
        self.moment
    }
}
