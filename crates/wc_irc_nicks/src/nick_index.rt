ghost use Rattle.std.specs.Prelude.{◌≡◌, ◌≤◌, ◌<◌, ◌+◌, ℕ, List, Some, None, OnOk, bytes_eq};
ghost use Rattle.std.specs.Prelude.{if◌then◌else◌, IsSome, length};
ghost use Rattle.wc_ircmsg.specs.CaseMaps.{folded_name};
ghost use Rattle.std.specs.HashMap.{spare};
ghost use Rattle.wc_nicklist.specs.Index.{at_long};
ghost use Rattle.wc_irc_nicks.specs.Kept.{place_in};

use crate::folded::FoldedNick;
use std::collections::HashMap;
use wc_irc_texts::LONGEST_NICK;
use wc_ircmsg::CaseMap;
use wc_text::NoMemory;

/// The places of nicks by what look-ups go by.
pub(crate) type NickIndex = HashMap<Vec<u8>, usize>;

/// The place of a nick.
pub(crate) fn find(index: &NickIndex, case_map: CaseMap, nick: &[u8]) -> Option<usize>
    ensures { result ≡ place_in case_map (at_long index.now) nick.now }
{
    if nick.len() > LONGEST_NICK {
        return None;
    }
    let folded = FoldedNick::new(case_map, nick);
    index.get(folded.as_slice()).copied()
}

/// Takes the memory for so many nicks more.
pub(crate) fn reserve(index: &mut NickIndex, count: usize) -> Result<(), NoMemory>
    ensures same { (q : List ℕ) → at_long index.new q ≡ at_long index.old q }
    ensures kept { spare index.old ≤ spare index.new }
    ensures ok { OnOk result (count ≤ spare index.new) }
{
    index.reserve(count)?;
    Ok(())
}

/// Notes the place of a key. It takes no memory.
pub(crate) fn insert(index: &mut NickIndex, key: Vec<u8>, place: usize)
    requires { 0 < spare index.old }
    ensures places { (q : List ℕ) → at_long index.new q ≡ (if bytes_eq key.items q then Some place
        else at_long index.old q) }
    ensures room { spare index.old ≤ spare index.new + 1 }
{
    let Ok(_) = index.insert(key, place) else {
        unreachable!()
    };
}

/// Forgets the place of a key.
pub(crate) fn remove(index: &mut NickIndex, key: &[u8])
    ensures places { (q : List ℕ) → at_long index.new q ≡ (if bytes_eq key.now q then None
        else at_long index.old q) }
    ensures room { spare index.old ≤ spare index.new }
{
    let _ = index.remove(key);
}

/// Forgets the place of a nick.
pub(crate) fn forget(index: &mut NickIndex, case_map: CaseMap, nick: &[u8])
    requires { length nick.now ≤ 64 }
    ensures places { (q : List ℕ) → at_long index.new q
        ≡ (if bytes_eq (folded_name case_map nick.now) q then None else at_long index.old q) }
    ensures room { spare index.old ≤ spare index.new }
{
    let folded = FoldedNick::new(case_map, nick);
    remove(index, folded.as_slice());
}

/// Changes the place of a key that is there. It takes no memory.
pub(crate) fn move_to(index: &mut NickIndex, key: &[u8], place: usize)
    requires { IsSome (at_long index.old key.now) }
    ensures places { (q : List ℕ) → at_long index.new q ≡ (if bytes_eq key.now q then Some place
        else at_long index.old q) }
    ensures room { spare index.new ≡ spare index.old }
{
    let Some(kept) = index.get_mut(key) else {
        unreachable!()
    };
    *kept = place;
}
