ghost use Rattle.std.specs.Prelude.{◌≡◌, ◌≤◌, ◌++◌, ◌∷◌, [], IsTrue};
ghost use Rattle.std.specs.Prelude.{◌+◌, ◌-◌, ◌^◌, min, ◌⊎◌, false};
ghost use Rattle.wc_outside.specs.Faults.{Rose};
ghost use Rattle.wc_scripted.specs.Rises.{RoseOnce, TellsOn};
ghost use Rattle.wc_scripted.specs.Plays.{is_failing};

use crate::told::Told;
use std::alloc::Global;
use wc_outside::{Asked, Failed, Happening};
use wc_text::{Items, LinkId, NoMemory, Text};

/// Counts calls from 1, and knows the numbers of those that are to fail.
#[derive(Drop)]
pub(crate) struct Calls {
    pub(crate) made: u64,
    pub(crate) failing: Items<u64>,
}

impl Calls {
    pub(crate) fn new(failing: Items<u64>) -> Calls
        ensures made { result.made ≡ 0 }
        ensures failing { result.failing ≡ failing }
    {
        Calls { made: 0, failing }
    }

    /// Counts one more call, and tells whether it is to fail.
    pub(crate) fn next_fails(&mut self) -> bool
        ensures made { self.new.made ≡ min (self.old.made + 1) (2 ^ 64 - 1) }
        ensures failing { self.new.failing ≡ self.old.failing }
        ensures fails { result ≡ is_failing self.new.made self.old.failing }
    {
        self.made = self.made.saturating_add(1);
        self.failing.as_slice().contains(&self.made)
    }
}

/// How often a wait, the listener, the making of a connection and a link failed.
#[derive(Clone, Copy)]
pub(crate) struct FaultCounts {
    pub(crate) waits: u64,
    pub(crate) listens: u64,
    pub(crate) connects: u64,
    pub(crate) links: u64,
}

/// Counts a fault.
pub(crate) fn count_fault(count: &mut u64)
    ensures rose { Rose count.old count.new }
    ensures counts { count.old ≤ count.new }
{
    *count = count.saturating_add(1);
}

/// Counts a fault, and tells the happening that it is.
pub(crate) fn fail(told: &mut Told, count: &mut u64, happening: Happening) -> Failed
    ensures rose { Rose count.old count.new }
    ensures counts { count.old ≤ count.new }
    ensures tells { IsTrue told.new.tells → IsTrue told.old.tells }
    ensures taken { IsTrue told.new.tells → told.new.taken ≡ told.old.taken ++ happening ∷ [] }
    ensures asked { told.new.asked ≡ told.old.asked }
    ensures refused { RoseOnce told.old.refused told.new.refused }
    ensures silent { told.old.tells ≡ false → told.new.refused ≡ told.old.refused }
    ensures goes_on { TellsOn told.old.tells told.new.tells told.old.refused told.new.refused }
{
    let _ = told.tell(happening);
    count_fault(count);
    Failed
}

/// Counts a fault for want of memory, and tells the happening that it is.
pub(crate) fn starve(told: &mut Told, count: &mut u64, happening: Happening) -> Failed
    ensures rose { Rose count.old count.new }
    ensures counts { count.old ≤ count.new }
    ensures tells { IsTrue told.new.tells → IsTrue told.old.tells }
    ensures taken { IsTrue told.new.tells → told.new.taken ≡ told.old.taken ++ happening ∷ [] }
    ensures asked { told.new.asked ≡ told.old.asked }
    ensures refused { Rose told.old.refused told.new.refused }
    ensures once { RoseOnce told.old.refused told.new.refused }
{
    if told.tell(happening) {
        told.refuse();
    }
    count_fault(count);
    Failed
}

/// Does the same in a call that noted before what was asked for, where this was the count of what
/// was refused: at most one refusal is counted of a call.
pub(crate) fn starve_noted(
    told: &mut Told,
    count: &mut u64,
    happening: Happening,
    before: u64,
) -> Failed
    requires noted { RoseOnce before told.old.refused }
    requires stops { (told.old.refused ≡ before) ⊎ (told.old.tells ≡ false) }
    ensures rose { Rose count.old count.new }
    ensures counts { count.old ≤ count.new }
    ensures tells { IsTrue told.new.tells → IsTrue told.old.tells }
    ensures taken { IsTrue told.new.tells → told.new.taken ≡ told.old.taken ++ happening ∷ [] }
    ensures asked { told.new.asked ≡ told.old.asked }
    ensures refused { Rose before told.new.refused }
    ensures once { RoseOnce before told.new.refused }
{
    if told.refused == before {
        return starve(told, count, happening);
    }
    fail(told, count, happening)
}

/// Tells what was given. Where memory for it is refused, that is a fault.
pub(crate) fn give(told: &mut Told, count: &mut u64, happening: Happening)
    ensures counts { count.old ≤ count.new }
    ensures tells { IsTrue told.new.tells → IsTrue told.old.tells }
    ensures taken { IsTrue told.new.tells → told.new.taken ≡ told.old.taken ++ happening ∷ [] }
    ensures asked { told.new.asked ≡ told.old.asked }
    ensures refused { RoseOnce told.old.refused told.new.refused }
    ensures goes_on { TellsOn told.old.tells told.new.tells told.old.refused told.new.refused }
{
    if !told.tell(happening) {
        *count = count.saturating_add(1);
    }
}

/// Tells bytes that were read. Where memory for them is refused, that is a fault.
pub(crate) fn give_bytes(
    alloc: Global,
    told: &mut Told,
    count: &mut u64,
    link: LinkId,
    bytes: &[u8],
)
    ensures counts { count.old ≤ count.new }
    ensures tells { IsTrue told.new.tells → IsTrue told.old.tells }
    ensures taken { IsTrue told.new.tells → told.new.taken ≡ told.old.taken
        ++ Happening.Read link bytes.now ∷ [] }
    ensures asked { told.new.asked ≡ told.old.asked }
    ensures refused { RoseOnce told.old.refused told.new.refused }
    ensures goes_on { TellsOn told.old.tells told.new.tells told.old.refused told.new.refused }
{
    if !told.tells {
        return;
    }
    match Text::from_slice(alloc, bytes) {
        Ok(piece) => give(told, count, Happening::Read(link, piece)),
        Err(NoMemory) => {
            told.stop();
            *count = count.saturating_add(1);
        }
    }
}

/// Tells what was asked for. Where memory for it is refused, that is a fault.
pub(crate) fn note(told: &mut Told, count: &mut u64, asked: Asked)
    ensures counts { count.old ≤ count.new }
    ensures tells { IsTrue told.new.tells → IsTrue told.old.tells }
    ensures taken { told.new.taken ≡ told.old.taken }
    ensures asked { IsTrue told.new.tells → told.new.asked ≡ told.old.asked ++ asked ∷ [] }
    ensures refused { RoseOnce told.old.refused told.new.refused }
    ensures stops { (told.new.refused ≡ told.old.refused) ⊎ (told.new.tells ≡ false) }
    ensures goes_on { TellsOn told.old.tells told.new.tells told.old.refused told.new.refused }
{
    if !told.tell_asked(asked) {
        *count = count.saturating_add(1);
    }
}
