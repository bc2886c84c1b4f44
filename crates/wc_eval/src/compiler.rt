ghost use Rattle.std.specs.Prelude.{◌≡◌, ◌+◌, ◌^◌, ◌≤◌, IfOk, IfErr, OnOk};
ghost use Rattle.std.specs.Str.{IsUtf8};
ghost use Rattle.regex.specs.Failures.{IsPattern};
ghost use Rattle.regex.specs.Strings.{regex_size};
ghost use Rattle.wc_eval.specs.Matching.{folding_config};
ghost use Rattle.wc_eval.specs.Verdicts.{Rose};
ghost use Rattle.wc_eval.specs.Built.{IsBuiltOf};

use regex::{Error, Regex, RegexBuilder};
use std::alloc::Global;
use wc_text::Text;

/// How many bytes the tables of a built pattern may take, about.
const MOST_BYTES: usize = 1 << 19;

/// Why a text was not built into a regular expression.
#[derive(Clone, Copy, PartialEq, Eq, Debug)]
pub enum CompileRefused {
    /// The grammar reads no pattern there, or it nests too deep.
    Syntax,
    /// It is refused for another cause, as that it is too big.
    Other,
    /// Memory was asked for and not found.
    NoMemory,
}

/// Builds patterns with case ignored, and counts those that are refused for another cause than the
/// grammar's. No other module writes the count, so that a refusal `Other` cannot be made up.
#[derive(Drop)]
pub struct Compiler {
    others: u64,
}

impl Compiler {
    /// It takes no memory.
    pub fn new() -> Compiler
        ensures { result.others ≡ 0 }
    {
        Compiler { others: 0 }
    }

    /// How many texts were refused as `Other`. It never falls.
    pub fn others(&self) -> u64
        ensures { result ≡ self.now.others }
    {
        self.others
    }

    /// The regular expression that the pattern is, with case ignored. One that is built takes about
    /// half a megabyte at most.
    pub fn compile(&mut self, alloc: Global, pattern: &Text) -> Result<Regex, CompileRefused>
        requires { IsUtf8 pattern.now }
        ensures built { IfOk result (IsBuiltOf pattern.now) }
        ensures small { IfOk result (λ regex. regex_size regex ≤ 2 ^ 19 + 24) }
        ensures later { self.old.others ≤ self.new.others }
        ensures fine { OnOk result (self.new.others ≡ self.old.others) }
        ensures syntax { IfErr result (λ refused. refused ≡ CompileRefused.Syntax →
            IsPattern folding_config pattern.now → ⊥) }
        ensures other { IfErr result (λ refused. refused ≡ CompileRefused.Other →
            Rose self.old.others self.new.others) }
        ensures memory { IfErr result (λ refused. refused ≡ CompileRefused.NoMemory →
            self.new.others ≡ self.old.others) }
    {
        let Ok(text) = std::str::from_utf8(pattern.as_slice()) else {
            unreachable!()
        };
        let builder = RegexBuilder::new(text).case_insensitive(true);
        match builder.size_limit(MOST_BYTES).build(alloc) {
            Ok(regex) => Ok(regex),
            Err(Error::Syntax(_)) => Err(CompileRefused::Syntax),
            Err(Error::OutOfMemory) => Err(CompileRefused::NoMemory),
            Err(Error::CompiledTooBig) | Err(Error::Internal) => {
                self.others = self.others.saturating_add(1);
                Err(CompileRefused::Other)
            }
        }
    }
}
