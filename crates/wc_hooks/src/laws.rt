//! Laws over any sequence of calls. There is nothing to run in them.
ghost use Rattle.std.specs.Prelude.{◌≡◌, ◌≤◌, ℕ, List, true, length};
ghost use Rattle.std.specs.List.{list_all};
ghost use Rattle.wc_hooks.specs.declared.kind.HookKind.{HookKind};
ghost use Rattle.wc_hooks.specs.Filings.{filed_under};
ghost use Rattle.wc_hooks.specs.History.{TableCall, after, after_all, leaves, opens, all_steps};
ghost use Rattle.wc_hooks.specs.History.{IsWalk};
ghost use Rattle.wc_hooks.specs.Table.{Table, IsOpen, IsHookTable};

/// From a place where a pass is open, over any calls that do not close it: each entry that was left
/// is looked at once and in order, or still left, and the pass gives exactly those that may run at
/// their turn.
pub fn passes_hold()
    ensures { (table : Table) (place : ℕ) (acts : List TableCall) → IsOpen table place →
        list_all (leaves place) acts ≡ true → IsWalk place acts table }
{}

/// From the opening of a pass, over any calls that do not close it: its calls of `next` took no
/// more steps than entries are filed under its kind and key.
pub fn steps_hold()
    ensures { (table : Table) (place : ℕ) (kind : HookKind) (key : List ℕ) (acts : List TableCall) →
        list_all (leaves place) acts ≡ true →
        IsHookTable (after_all acts (after (opens place kind key) table)) →
        IsOpen (after (opens place kind key) table) place → all_steps place acts
        ≤ length (filed_under kind key
        (after_all acts (after (opens place kind key) table)).filed) }
{}
