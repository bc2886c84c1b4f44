//! What the definitions say of one another.

ghost use Rattle.std.specs.List.{list_all, list_any};
ghost use Rattle.std.specs.Prelude.{◌≡◌, ◌≢◌, ◌==◌, ◌*◌, ◌<◌, ◌≤◌, ◌^◌, ℕ, List, codes, is_some, true};
ghost use Rattle.wc_options.specs.Options.{OptionsValue};
ghost use Rattle.wc_model.specs.World.{World};
ghost use Rattle.wc_world.specs.Handles.{skip_world};
ghost use Rattle.wc_session.specs.Heeded.{option_value};
ghost use Rattle.wc_core.specs.Limits.{first_handle};
ghost use Rattle.wc_core.specs.CommandNames.{is_known, is_named};
ghost use Rattle.wc_core.specs.Forms.{command_names, first_words, form_count, form_named};
ghost use Rattle.wc_core.specs.Forms.{slashed_names};
ghost use Rattle.wc_irc_words.specs.Typed.{is_called};

/// The table of commands names exactly those that the core or servers know.
pub fn known_commands_are_named()
    ensures { (name : List ℕ) → is_known name ≡ is_named name }
{}

/// Each name of a command begins one form and no other. What `/help` finds a form for are exactly
/// these names, in letters of any case.
pub fn each_command_has_one_form()
    ensures begun { first_words ≡ slashed_names }
    ensures once { list_all (λ name. form_count name == 1) command_names ≡ true }
    ensures found { (name : List ℕ) →
        is_some (form_named name) ≡ list_any (is_called name) command_names }
{}

/// Where handles are not to be fresh, none are passed over at the start.
pub fn counted_handles_are_skipped_nowhere()
    ensures { (options : OptionsValue) (moment : ℕ) (world : World) →
        option_value options (codes "relay.network.handles") ≢ codes "fresh" →
        skip_world (first_handle options moment) world ≡ world }
{}

/// Where they are, the next handle of a run that starts before the year 2109 is at least the moment of
/// its start, in milliseconds since 1970, times 2^20.
pub fn fresh_handles_begin_at_the_start()
    ensures { (options : OptionsValue) (moment : ℕ) (world : World) →
        option_value options (codes "relay.network.handles") ≡ codes "fresh" → moment < 2 ^ 42 →
        moment * 1048576 ≤ (skip_world (first_handle options moment) world).next }
{}
