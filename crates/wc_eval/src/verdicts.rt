ghost use Rattle.std.specs.Prelude.{◌≡◌, ◌<◌, ◌≤◌, ◌++◌, ◌∷◌, [], Some, None, IfOk, IfSome, OnErr};
ghost use Rattle.std.specs.Prelude.{is_some, length};
ghost use Rattle.std.specs.Str.{IsUtf8};
ghost use Rattle.wc_eval.specs.Verdicts.{verdict_on, is_known_fine, is_fine, others_in, AreOnce};
ghost use Rattle.wc_eval.specs.Verdicts.{IsCaused, Judges, OnlyOn, Stay, verdict_in};
ghost use Rattle.wc_eval.specs.Matching.{folding_config};
ghost use Rattle.regex.specs.Failures.{IsPattern};
ghost use Rattle.indexmap.specs.IndexMap.{spare};
ghost use Rattle.wc_eval.specs.declared.verdict.Verdict.{Verdict};
ghost use Rattle.wc_eval.specs.declared.verdict.Verdict.TheVariants.{Fine};
ghost use Rattle.wc_eval.specs.Judged.{IsJudgementOf, verdict_of, rows_of};

use crate::compiler::{CompileRefused, Compiler};
use crate::pattern::Pattern;
use crate::pattern_cache::PatternCache;
use crate::verdict::{Judgement, Verdict};
use indexmap::IndexMap;
use std::alloc::Global;
use std::marker::Model;
use wc_text::{NoMemory, Text};

/// The texts that were judged as patterns, each of them once, and the 256 patterns that were used
/// last, built. A verdict that was given stays.
///
/// A verdict costs its text and about a hundred bytes, as long as the program runs. What is built of
/// a pattern takes about half a megabyte at most, and is given back as 256 others are used after it.
#[derive(Drop)]
pub struct Verdicts {
    alloc: Global,
    compiler: Compiler,
    judged: IndexMap<Vec<u8>, Verdict>,
    built: PatternCache,
}

impl Model for Verdicts {
    ghost use Rattle.wc_eval.specs.Verdicts.{VerdictsView};

    ghost Value = { VerdictsView };

    ghost use Rattle.std.specs.Prelude.{◌≤◌};
    ghost use Rattle.wc_eval.specs.Verdicts.{others_in, AreOnce};
    ghost use Rattle.wc_eval.specs.Judged.{AreRight, rows_of};

    ghost invariant = { λ s. AreRight s.judged.entries × AreOnce (rows_of s.judged.entries)
        × (others_in (rows_of s.judged.entries) ≤ s.compiler.others) };

    ghost view = { λ s. record { rows = rows_of s.judged.entries; others = s.compiler.others } };
}

/// Builds a text. Only want of memory is a failure.
fn build(compiler: &mut Compiler, alloc: Global, pattern: &Text) -> Result<Judgement, NoMemory>
    requires { IsUtf8 pattern.now }
    ensures built { IfOk result (IsJudgementOf pattern.now) }
    ensures caused { IfOk result (λ judgement. IsCaused compiler.old.others compiler.new.others
        pattern.now (verdict_of judgement)) }
    ensures later { compiler.old.others ≤ compiler.new.others }
    ensures failed { OnErr result (compiler.new.others ≡ compiler.old.others) }
{
    match compiler.compile(alloc, pattern) {
        Ok(regex) => Ok(Judgement::Built(Pattern::new(alloc, regex)?)),
        Err(CompileRefused::Syntax) => Ok(Judgement::Syntax),
        Err(CompileRefused::Other) => Ok(Judgement::Other),
        Err(CompileRefused::NoMemory) => Err(NoMemory),
    }
}

/// Builds a pattern again. A refusal for another cause, of what was built before, is counted and
/// answered as want of memory.
fn build_again(compiler: &mut Compiler, alloc: Global, pattern: &Text) -> Result<Pattern, NoMemory>
    requires utf8 { IsUtf8 pattern.now }
    requires fine { IsPattern folding_config pattern.now }
    ensures built { IfOk result (λ own. own ≡ pattern.now) }
    ensures later { compiler.old.others ≤ compiler.new.others }
{
    match compiler.compile(alloc, pattern) {
        Ok(regex) => Pattern::new(alloc, regex),
        Err(CompileRefused::Syntax) => unreachable!(),
        Err(CompileRefused::Other) | Err(CompileRefused::NoMemory) => Err(NoMemory),
    }
}

/// Keeps what was built of a text, if something was.
fn keep(built: &mut PatternCache, text: &[u8], judgement: Judgement)
    requires { IsJudgementOf text.now judgement }
{
    if let Judgement::Built(own) = judgement {
        built.keep(text, own);
    }
}

impl Verdicts {
    /// No verdicts.
    pub fn new(alloc: Global) -> Result<Verdicts, NoMemory>
        ensures { IfOk result (λ verdicts. (verdicts.rows ≡ []) × (verdicts.others ≡ 0)) }
    {
        Ok(Verdicts {
            alloc,
            compiler: Compiler::new(),
            judged: IndexMap::new(alloc),
            built: PatternCache::new(alloc)?,
        })
    }

    /// How many verdicts at most are of the kind `Other`. It never falls.
    pub fn others(&self) -> u64
        ensures value { result ≡ self.now.others }
        ensures most { others_in self.now.rows ≤ result }
        // none is built twice
        ensures once { AreOnce self.now.rows }
    {
        self.compiler.others()
    }

    /// The verdict on a text, if it was judged. `Syntax` is one only where the grammar reads no
    /// pattern in the text.
    pub fn verdict(&self, pattern: &Text) -> Option<Verdict>
        ensures value { result ≡ verdict_on pattern.now self.now }
        ensures syntax { result ≡ Some Verdict.Syntax → IsPattern folding_config pattern.now → ⊥ }
    {
        match self.judged.get(pattern.as_slice()) {
            Some(verdict) => Some(*verdict),
            None => None,
        }
    }

    /// How many patterns are kept built.
    pub fn built_count(&self) -> usize
        ensures most { result ≤ 256 }
    {
        self.built.len()
    }

    /// The pattern that a text was judged to be. None exactly where it was not judged to be one. No
    /// verdict comes of it.
    ///
    /// One that is not kept is built again. Refused for want of memory, and should what was built
    /// before be refused now for another cause, which `others` then counts.
    pub fn pattern(&mut self, pattern: &Text) -> Result<Option<Pattern>, NoMemory>
        ensures built { IfOk result (λ found. IfSome found (λ own. own ≡ pattern.now)) }
        ensures there { IfOk result (λ found. is_some found ≡ is_known_fine pattern.now self.old) }
        ensures rows { self.new.rows ≡ self.old.rows }
        ensures stay { Stay self.old self.new }
    {
        match self.verdict(pattern) {
            Some(Verdict::Fine) => Ok(Some(self.fine_pattern(pattern)?)),
            _ => Ok(None),
        }
    }

    /// The pattern that a text was judged to be, which may have to be built again.
    fn fine_pattern(&mut self, pattern: &Text) -> Result<Pattern, NoMemory>
        requires { verdict_on pattern.now self.old ≡ Some Fine }
        ensures built { IfOk result (λ own. own ≡ pattern.now) }
        ensures rows { self.new.rows ≡ self.old.rows }
        ensures later { self.old.others ≤ self.new.others }
    {
        if let Some(own) = self.built.find(pattern.as_slice())? {
            return Ok(own);
        }
        let own = build_again(&mut self.compiler, self.alloc, pattern)?;
        self.built.keep(pattern.as_slice(), own.share()?);
        Ok(own)
    }

    /// Whether the text is a pattern. A new verdict is false only where the grammar reads no
    /// pattern in the text, or `others` rose. No other text gets a verdict. Refused for want of
    /// memory alone.
    pub fn judge(&mut self, pattern: &Text) -> Result<bool, NoMemory>
        requires { IsUtf8 pattern.now }
        ensures judges { IfOk result (λ fine. (verdict : Verdict)
            × Judges pattern.now self.old self.new verdict × (fine ≡ is_fine verdict)) }
        ensures syntax { IfOk result (λ _. verdict_on pattern.now self.new ≡ Some Verdict.Syntax →
            IsPattern folding_config pattern.now → ⊥) }
        ensures only { OnlyOn pattern.now self.old self.new }
        ensures err { OnErr result (self.new ≡ self.old) }
    {
        if let Some(verdict) = self.verdict(pattern) {
            return Ok(verdict == Verdict::Fine);
        }
        let verdict = self.judge_anew(pattern)?;
        Ok(verdict == Verdict::Fine)
    }

    /// Judges a text that was not judged before. All memory for its place is taken first, so that
    /// what was counted is kept.
    fn judge_anew(&mut self, pattern: &Text) -> Result<Verdict, NoMemory>
        requires utf8 { IsUtf8 pattern.now }
        requires new { verdict_on pattern.now self.old ≡ None }
        ensures judges { IfOk result (Judges pattern.now self.old self.new) }
        ensures only { OnlyOn pattern.now self.old self.new }
        ensures err { OnErr result (self.new ≡ self.old) }
    {
        let key = pattern.as_slice().to_vec(self.alloc)?;
        self.judged.reserve(1)?;
        let judgement = build(&mut self.compiler, self.alloc, pattern)?;
        let verdict = judgement.verdict();
        let _count = put(&mut self.judged, key, verdict);
        keep(&mut self.built, pattern.as_slice(), judgement);
        Ok(verdict)
    }
}

/// Puts a verdict after the others. It answers how many there are then, and takes no memory.
fn put(judged: &mut IndexMap<Vec<u8>, Verdict>, key: Vec<u8>, verdict: Verdict) -> usize
    requires room { 0 < spare judged.old }
    requires new { verdict_in key.items (rows_of judged.old.entries) ≡ None }
    ensures entries { judged.new.entries ≡ judged.old.entries ++ (key, verdict) ∷ [] }
    ensures count { result ≡ length judged.new.entries }
{
    let Ok(_) = judged.insert(key, verdict) else {
        unreachable!()
    };
    judged.len()
}
