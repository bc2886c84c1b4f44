ghost use Rattle.std.specs.Prelude.{◌≡◌};
ghost use Rattle.wc_triggers.specs.Outcomes.{code_of, post_of};

/// What a trigger that ran says of what was going on.
#[derive(Clone, Copy, PartialEq, Eq, Debug)]
pub enum ReturnCode {
    /// It goes on.
    Ok,
    /// A command stops there.
    OkEat,
    /// The trigger found something wrong.
    Error,
}

/// What becomes of a trigger that ran.
#[derive(Clone, Copy, PartialEq, Eq, Debug)]
pub enum PostAction {
    /// It stays as it is.
    Keep,
    /// It is disabled.
    Disable,
    /// It is deleted.
    Delete,
}

/// The return code that a word names, which is `ok` where the word lacks.
pub(crate) fn code_of(word: &[u8]) -> Option<ReturnCode>
    ensures { result ≡ code_of word.now }
{
    if word.is_empty() || word == b"ok".as_slice() {
        Some(ReturnCode::Ok)
    } else if word == b"ok_eat".as_slice() {
        Some(ReturnCode::OkEat)
    } else if word == b"error".as_slice() {
        Some(ReturnCode::Error)
    } else {
        None
    }
}

/// The post action that a word names, which is `none` where the word lacks.
pub(crate) fn post_of(word: &[u8]) -> Option<PostAction>
    ensures { result ≡ post_of word.now }
{
    if word.is_empty() || word == b"none".as_slice() {
        Some(PostAction::Keep)
    } else if word == b"disable".as_slice() {
        Some(PostAction::Disable)
    } else if word == b"delete".as_slice() {
        Some(PostAction::Delete)
    } else {
        None
    }
}
