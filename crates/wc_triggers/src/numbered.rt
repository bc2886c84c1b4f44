ghost use Rattle.std.specs.Prelude.{◌≡◌};
ghost use Rattle.wc_triggers.specs.Kept.{is_named, with_flag};

use crate::trigger::Trigger;
use wc_text::Text;

/// A trigger with its number.
#[derive(Drop)]
pub struct NumberedTrigger {
    pub(crate) number: u64,
    pub(crate) trigger: Trigger,
}

impl NumberedTrigger {
    pub(crate) fn is_named(&self, name: &Text) -> bool
        ensures { result ≡ is_named name.now self.now }
    {
        self.trigger.is_named(name)
    }

    /// Enables or disables the trigger, if it has this name.
    pub(crate) fn enable(&mut self, name: &Text, on: bool)
        ensures { self.new ≡ with_flag name.now on self.old }
    {
        if self.is_named(name) {
            self.trigger.switch(on);
        }
    }
}
