//! The options, as clients set them.

ghost use Rattle.std.specs.Prelude.{◌≡◌, ◌≢◌, ◌≤◌, IfSome};
ghost use Rattle.std.specs.Str.{IsUtf8};
ghost use Rattle.wc_core.specs.Resolved.{option_text};
ghost use Rattle.wc_core.specs.Contained.{Runs};
ghost use Rattle.wc_core.specs.State.{State, Stepped};
ghost use Rattle.wc_core.specs.Step.{limit_step, set_effect_step, unset_effect_step};
ghost use Rattle.wc_core.specs.Step.{set_step, unset_step, save_step, refusal_step};

use crate::core_acts::NULL;
use crate::core_state::Core;
use crate::limits::{limit_set, limit_unset};
use crate::refusals::option_text;
use wc_model::{Change, What};
use wc_options::SetRefused;
use wc_text::{NoMemory, Pair, Text};

impl Core {
    /// Gives an option a value, or tells why it is refused. A new limit of lines is in effect, and
    /// told, before the option has its value. Where it finds no memory nothing more is done.
    pub(crate) fn set_option(&mut self, pair: &Pair)
        requires name { IsUtf8 pair.now.name }
        requires value { IsUtf8 pair.now.value }
        ensures { Runs self.old self.new
            (λ state. set_effect_step state pair.now.name pair.now.value) }
    {
        let limit = limit_set(pair.name.as_slice(), pair.value.as_slice());
        let cuts = self.cuts;
        self.change_limit(limit);
        if self.cuts != cuts {
            return;
        }
        self.set_value(pair);
    }

    /// Gives an option its default, or tells that there is no such option. A new limit of lines is in
    /// effect, and told, before. Where it finds no memory nothing more is done.
    pub(crate) fn unset_option(&mut self, name: &Text)
        requires { IsUtf8 name.now }
        ensures { Runs self.old self.new (λ state. unset_effect_step state name.now) }
    {
        let limit = limit_unset(name.as_slice());
        let cuts = self.cuts;
        self.change_limit(limit);
        if self.cuts != cuts {
            return;
        }
        self.unset_value(name);
    }

    /// Has each buffer hold so many lines at most, where a limit is given.
    fn change_limit(&mut self, limit: Option<u32>)
        requires { IfSome limit (λ limit. (1 ≤ limit) × (limit ≤ 4096)) }
        ensures { Runs self.old self.new (λ state. limit_step state limit) }
    {
        if let Some(most) = limit {
            self.make_change(Change {
                buffer: NULL,
                what: What::Limit(most),
            });
        }
    }

    /// Gives an option a value, or tells why it is refused.
    fn set_value(&mut self, pair: &Pair)
        requires name { IsUtf8 pair.now.name }
        requires value { IsUtf8 pair.now.value }
        ensures { Runs self.old self.new
            (λ state. set_step state pair.now.name pair.now.value) }
    {
        match self.options.set(self.alloc, &pair.name, &pair.value) {
            Ok(_) => {}
            Err(refused) => self.refuse_option(&pair.name, &refused),
        }
    }

    /// Gives an option its default, or tells that there is no such option.
    fn unset_value(&mut self, name: &Text)
        requires { IsUtf8 name.now }
        ensures { Runs self.old self.new (λ state. unset_step state name.now) }
    {
        match self.options.unset(self.alloc, name) {
            Ok(()) => {}
            Err(refused) => self.refuse_option(name, &refused),
        }
    }

    /// Saves the options: the loop is to write their text.
    pub(crate) fn save(&mut self)
        ensures { Runs self.old self.new (λ state. save_step state) }
    {
        match self.options.write_config(self.alloc) {
            Ok(text) => {
                self.saved = Some(text);
                self.unwritten = true;
            }
            Err(NoMemory) => self.starve(),
        }
    }

    /// Tells why an option does not get a value, and counts want of memory.
    fn refuse_option(&mut self, name: &Text, refused: &SetRefused)
        requires { IsUtf8 (option_text name.now refused.now) }
        ensures told { refused.now ≢ SetRefused.NoMemory → Runs self.old self.new
            (λ state. refusal_step state (option_text name.now refused.now)) }
        ensures starves { refused.now ≡ SetRefused.NoMemory → (step : State → Stepped) →
            Runs self.old self.new step }
    {
        match refused {
            SetRefused::NoMemory => self.starve(),
            _ => self.tell_option(name, refused),
        }
    }

    /// Tells why an option does not get a value.
    fn tell_option(&mut self, name: &Text, refused: &SetRefused)
        requires { IsUtf8 (option_text name.now refused.now) }
        ensures { Runs self.old self.new
            (λ state. refusal_step state (option_text name.now refused.now)) }
    {
        match option_text(self.alloc, name.as_slice(), refused) {
            Ok(text) => self.tell_refusal(text),
            Err(NoMemory) => self.starve(),
        }
    }
}
