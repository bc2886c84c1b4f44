ghost use Rattle.std.specs.Prelude.{◌≡◌, ◌++◌, ◌∷◌, [], IsTrue, true, false};
ghost use Rattle.std.specs.Prelude.{◌+◌, ◌-◌, ◌^◌, min, if◌then◌else◌};
ghost use Rattle.wc_scripted.specs.Rises.{TellsOn};

use std::alloc::Global;
use wc_outside::{Asked, Happening};
use wc_text::Items;

/// What is told of sockets, until memory for it is refused.
#[derive(Drop)]
pub(crate) struct Told {
    pub(crate) tells: bool,
    pub(crate) taken: Items<Happening>,
    pub(crate) asked: Items<Asked>,
    /// How often memory was refused.
    pub(crate) refused: u64,
}

impl Told {
    pub(crate) fn new(alloc: Global) -> Told
        ensures tells { IsTrue result.tells }
        ensures taken { result.taken ≡ [] }
        ensures asked { result.asked ≡ [] }
        ensures refused { result.refused ≡ 0 }
    {
        Told {
            tells: true,
            taken: Items::new(alloc),
            asked: Items::new(alloc),
            refused: 0,
        }
    }

    /// Notes that memory was refused.
    pub(crate) fn refuse(&mut self)
        ensures tells { self.new.tells ≡ self.old.tells }
        ensures taken { self.new.taken ≡ self.old.taken }
        ensures asked { self.new.asked ≡ self.old.asked }
        ensures refused { self.new.refused ≡ min (self.old.refused + 1) (2 ^ 64 - 1) }
    {
        self.refused = self.refused.saturating_add(1);
    }

    /// Tells no more, since memory was refused.
    pub(crate) fn stop(&mut self)
        ensures tells { self.new.tells ≡ false }
        ensures taken { self.new.taken ≡ self.old.taken }
        ensures asked { self.new.asked ≡ self.old.asked }
        ensures refused { self.new.refused ≡ min (self.old.refused + 1) (2 ^ 64 - 1) }
    {
        self.tells = false;
        self.refuse();
    }

    /// Tells what was given; false where memory for it is refused.
    pub(crate) fn tell(&mut self, happening: Happening) -> bool
        ensures tells { IsTrue self.new.tells → IsTrue self.old.tells }
        ensures taken { IsTrue self.new.tells → self.new.taken ≡ self.old.taken ++ happening ∷ [] }
        ensures asked { self.new.asked ≡ self.old.asked }
        ensures refused { self.new.refused ≡ (if result then self.old.refused
            else min (self.old.refused + 1) (2 ^ 64 - 1)) }
        ensures stops { result ≡ false → self.new.tells ≡ false }
        ensures silent { self.old.tells ≡ false → result ≡ true }
        ensures goes_on { TellsOn self.old.tells self.new.tells self.old.refused self.new.refused }
    {
        if self.tells && self.taken.push(happening).is_err() {
            self.stop();
            return false;
        }
        true
    }

    /// Tells what was asked for; false where memory for it is refused.
    pub(crate) fn tell_asked(&mut self, asked: Asked) -> bool
        ensures tells { IsTrue self.new.tells → IsTrue self.old.tells }
        ensures taken { self.new.taken ≡ self.old.taken }
        ensures asked { IsTrue self.new.tells → self.new.asked ≡ self.old.asked ++ asked ∷ [] }
        ensures refused { self.new.refused ≡ (if result then self.old.refused
            else min (self.old.refused + 1) (2 ^ 64 - 1)) }
        ensures stops { result ≡ false → self.new.tells ≡ false }
        ensures silent { self.old.tells ≡ false → result ≡ true }
        ensures goes_on { TellsOn self.old.tells self.new.tells self.old.refused self.new.refused }
    {
        if self.tells && self.asked.push(asked).is_err() {
            self.stop();
            return false;
        }
        true
    }
}
