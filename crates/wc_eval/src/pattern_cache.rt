ghost use Rattle.std.specs.Prelude.{◌≡◌, ◌≤◌, IfOk, IfSome};

use crate::pattern::Pattern;
use lru::LruCache;
use std::alloc::Global;
use std::marker::Model;
use std::num::NonZeroUsize;
use wc_text::NoMemory;

/// How many patterns are kept built.
const MOST_BUILT: usize = 256;

/// The patterns that were used last, built. Contracts see how many.
#[derive(Drop)]
pub(crate) struct PatternCache {
    alloc: Global,
    patterns: LruCache<Vec<u8>, Pattern>,
}

impl Model for PatternCache {
    ghost use Rattle.std.specs.Prelude.{ℕ, length};

    ghost Value = { ℕ };

    ghost use Rattle.std.specs.Prelude.{◌≡◌};
    ghost use Rattle.wc_eval.specs.Judged.{AreOwn};

    ghost view = { λ c. length c.patterns.entries };

    ghost invariant = { λ c. AreOwn c.patterns.entries × (c.patterns.cap ≡ 256) };
}

impl PatternCache {
    /// No patterns.
    pub(crate) fn new(alloc: Global) -> Result<PatternCache, NoMemory>
        ensures { IfOk result (λ cache. cache ≡ 0) }
    {
        let Some(most) = NonZeroUsize::new(MOST_BUILT) else {
            unreachable!()
        };
        let patterns = LruCache::sparse(alloc, most)?;
        Ok(PatternCache { alloc, patterns })
    }

    /// How many patterns are kept.
    pub(crate) fn len(&self) -> usize
        ensures value { result ≡ self.now }
        ensures most { result ≤ 256 }
    {
        self.patterns.len()
    }

    /// The pattern that is kept of a text. It is then the one that was used last.
    pub(crate) fn find(&mut self, text: &[u8]) -> Result<Option<Pattern>, NoMemory>
        ensures { IfOk result (λ found. IfSome found (λ pattern. pattern ≡ text.now)) }
    {
        let Some(pattern) = self.patterns.get(text) else {
            return Ok(None);
        };
        Ok(Some(pattern.share()?))
    }

    /// Keeps what a text was built into, in place of the pattern that was not used for longest, where
    /// there are 256. It is not kept where no memory is found for its place, since it can be built
    /// again.
    pub(crate) fn keep(&mut self, text: &[u8], pattern: Pattern)
        requires { pattern ≡ text.now }
    {
        if let Ok(key) = text.to_vec(self.alloc) {
            drop(self.patterns.put(key, pattern));
        }
    }
}
