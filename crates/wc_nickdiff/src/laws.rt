//! Laws over the definitions. Their functions do nothing.

ghost use Rattle.std.specs.Prelude.{◌≡◌, false, List, Ok, Option, None};
ghost use Rattle.wc_text.specs.declared.names.Handle.{Handle};
ghost use Rattle.wc_nicklist.specs.declared.item.Key.{Key};
ghost use Rattle.wc_nicklist.specs.declared.item.Row.{Row};
ghost use Rattle.wc_nicklist.specs.Rows.{IsRows, key_eq, find_row};
ghost use Rattle.wc_nicklist.specs.Touched.{first_touch};
ghost use Rattle.wc_nickdiff.specs.Apply.{applied_all};
ghost use Rattle.wc_nickdiff.specs.NickPush.{diff, nick_push, root_item};
ghost use Rattle.wc_nickdiff.specs.PushLaw.{rows_after_push};
ghost use Rattle.wc_nickdiff.specs.Told.{IsTold};

/// Applying the diff of the rows told and the rows now to the rows told gives the rows now.
pub fn diff_holds()
    ensures { (root : Handle) (told now : List Row) → IsRows told → IsRows now →
        applied_all (diff (root_item root) told now) told ≡ Ok now }
{}

/// Applying or reading the push of the rows told and the rows now gives the rows now.
pub fn push_holds()
    ensures { (root : Handle) (told now : List Row) → IsRows told → IsRows now →
        rows_after_push (nick_push root told now) told ≡ Ok now }
{}

/// Rows that were just pushed are those that were told.
pub fn pushed_are_told()
    ensures { (now : List Row) → IsRows now → IsTold (λ k. None) now now }
{}

/// A change of the row of one key keeps what was told, where it was touched with the row that was
/// there.
pub fn touch_keeps_told()
    ensures { (b : Handle) (k : Key) (first : Handle → Key → Option (Option Row))
        (old new told : List Row) → ((q : Key) → key_eq k q ≡ false →
        find_row q new ≡ find_row q old) → IsTold (first b) old told →
        IsTold (first_touch b k (find_row k old) first b) new told }
{}

/// Where no key was touched, the rows that were told are the rows now.
pub fn untouched_are_told()
    ensures { (first : Key → Option (Option Row)) (now told : List Row) → IsRows now →
        ((k : Key) → first k ≡ None) → IsTold first now told → told ≡ now }
{}
