ghost use Rattle.std.specs.Prelude.{◌≡◌, ◌≤◌, length, IfOk};
ghost use Rattle.wc_ircmsg.specs.CaseMaps.{folded_name};

use std::alloc::Global;
use std::marker::Model;
use wc_irc_texts::LONGEST_NICK;
use wc_ircmsg::CaseMap;
use wc_text::NoMemory;

/// A nick with the characters that are the same folded into one, by which look-ups go. It takes no
/// memory.
#[derive(Drop)]
pub(crate) struct FoldedNick {
    bytes: [u8; LONGEST_NICK],
    len: usize,
}

impl Model for FoldedNick {
    ghost use Rattle.std.specs.Prelude.{ℕ, ◌≤◌, List, take};

    ghost Value = { List ℕ };

    ghost view = { λ a. take a.len a.bytes };

    ghost invariant = { λ a. a.len ≤ 64 };
}

impl FoldedNick {
    pub(crate) fn new(case_map: CaseMap, nick: &[u8]) -> FoldedNick
        requires { length nick.now ≤ 64 }
        ensures { result ≡ folded_name case_map nick.now }
    {
        let mut bytes = [0; LONGEST_NICK];
        let mut len = 0;
        for byte in nick {
            bytes[len] = case_map.fold(*byte);
            len += 1;
        }
        FoldedNick { bytes, len }
    }

    pub(crate) fn as_slice(&self) -> &[u8]
        ensures { result.now ≡ self.now }
    {
        self.bytes.as_slice().split_at(self.len).0
    }
}

/// The same in memory of its own.
pub(crate) fn folded_key(alloc: Global, case_map: CaseMap, nick: &[u8]) -> Result<Vec<u8>, NoMemory>
    ensures { IfOk result (λ key. key.items ≡ folded_name case_map nick.now) }
{
    let key = nick.iter().map(|byte| case_map.fold(*byte)).collect(alloc)?;
    Ok(key)
}
