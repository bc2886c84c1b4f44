//! What holds of every spelling.

ghost use Rattle.std.specs.Prelude.{◌≡◌, ℕ, List, [], ◌++◌};
ghost use Rattle.wc_objects.specs.declared.object.WireMessage.{WireMessage};
ghost use Rattle.wc_objects.specs.Spells.{Spells};
ghost use Rattle.wc_objects.specs.Within.{IsWithin};

/// A message has one spelling.
pub fn one_spelling()
    ensures { (message : WireMessage) (a b : List ℕ) → Spells message a → Spells message b → a ≡ b }
{}

/// No spelling of a message begins another, so a stream of messages falls apart in one way.
pub fn no_spelling_begins_another()
    ensures { (m n : WireMessage) (a b rest : List ℕ) → Spells m a → Spells n b → b ≡ a ++ rest →
        rest ≡ [] }
{}

/// No bytes spell two messages.
pub fn one_message()
    ensures { (m n : WireMessage) (bytes : List ℕ) → IsWithin m → IsWithin n → Spells m bytes →
        Spells n bytes → m ≡ n }
{}
