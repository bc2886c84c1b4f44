ghost use Rattle.std.specs.Prelude.{◌≡◌, ◌↔◌, ◌==◌, IsTrue};
ghost use Rattle.std.specs.List.{list_all, zip};
ghost use Rattle.wc_ircmsg.specs.CaseMaps.{folded_signs, fold_by, IsSameName};

/// Which characters a server counts as the same: its CASEMAPPING.
#[derive(Clone, Copy, Debug, PartialEq, Eq)]
pub enum CaseMap {
    /// Letters of ASCII in either case.
    Ascii,
    /// Letters, `[` and `{`, `\` and `|`, `]` and `}`, and `~` and `^`.
    Rfc1459,
    /// Letters, `[` and `{`, `\` and `|`, and `]` and `}`.
    StrictRfc1459,
}

impl CaseMap {
    /// The character that stands for all that are the same as this one.
    pub fn fold(self, byte: u8) -> u8
        ensures { result ≡ fold_by (folded_signs self) byte }
    {
        match (self, byte) {
            (CaseMap::Rfc1459, b'~') => b'^',
            (CaseMap::Rfc1459 | CaseMap::StrictRfc1459, b'['..=b']') => byte + 32,
            _ => byte.to_ascii_lowercase(),
        }
    }
}

fn are_same(map: CaseMap, a: &[u8], b: &[u8]) -> bool
    ensures { result ≡ list_all (λ p. fold_by (folded_signs map) p.0 ==
        fold_by (folded_signs map) p.1) (zip a.now b.now) }
{
    a.iter().zip(b).all(|(x, y)| map.fold(*x) == map.fold(*y))
}

/// Whether two nicks or channel names are the same in this mapping. It takes no memory.
pub fn same_name(map: CaseMap, a: &[u8], b: &[u8]) -> bool
    ensures { IsTrue result ↔ IsSameName map a.now b.now }
{
    a.len() == b.len() && are_same(map, a, b)
}
