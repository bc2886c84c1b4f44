//! What holds of every text.

ghost use Rattle.wc_irc_texts.specs.Parts.{PartsAreWhole};

/// The parts of a text and the blanks that are left out between them are the text. No part is
/// empty or longer than the room, and none begins or ends inside a character.
pub fn parts_are_whole()
    ensures { PartsAreWhole }
{}
