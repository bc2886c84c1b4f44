//! What the tables say of one another.

ghost use Rattle.std.specs.Prelude.{◌≡◌, false};
ghost use Rattle.wc_keys.specs.declared.key.KeyList.TheVariants as lists;
ghost use Rattle.wc_keys.specs.Events.{buffer_path, list_of, path_of};
ghost use Rattle.wc_keys.specs.Keys.{has_own};
ghost use Rattle.wc_model.specs.declared.notice.EventKind.{EventKind};

/// No event of a buffer has a key of our own, nor has the dump of buffers.
pub fn own_keys_are_not_told()
    ensures events { (kind : EventKind) → path_of kind ≡ buffer_path → has_own (list_of kind) ≡ false }
    ensures dump { has_own lists.Dump ≡ false }
{}
