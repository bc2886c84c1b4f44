ghost use Rattle.std.specs.Prelude.{◌≡◌};
ghost use Rattle.wc_eval.specs.Judged.{verdict_of};

use crate::pattern::Pattern;

/// What was found of a text that was judged as a pattern.
#[derive(Clone, Copy, PartialEq, Eq, Debug)]
pub enum Verdict {
    /// It is a pattern.
    Fine,
    /// The grammar reads no pattern there, or it nests too deep.
    Syntax,
    /// It is refused for another cause, as that it is too big.
    Other,
}

/// What a text that is judged as a pattern comes to.
#[derive(Drop)]
pub(crate) enum Judgement {
    Built(Pattern),
    Syntax,
    Other,
}

impl Judgement {
    pub(crate) fn verdict(&self) -> Verdict
        ensures { result ≡ verdict_of self.now }
    {
        match self {
            Judgement::Built(_) => Verdict::Fine,
            Judgement::Syntax => Verdict::Syntax,
            Judgement::Other => Verdict::Other,
        }
    }
}
