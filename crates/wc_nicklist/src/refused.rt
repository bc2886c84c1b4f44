use crate::name::Name;
use std::fmt;
use wc_text::Text;

/// Why a call of a nicklist was refused. Of several reasons the first in this order is answered.
#[derive(Drop, thiserror::Error)]
pub enum NickRefused {
    /// A group named `root` can't be added, removed or changed.
    IsRoot,
    /// The name is empty or too long.
    BadName { length: u64 },
    /// No group has the parent's name.
    NoParent { name: Text },
    /// A group or a nick of that name is there.
    NameTaken { name: Name },
    /// No group or no nick of that name is there.
    NoSuch { name: Name },
    /// The group has nicks or groups.
    NotEmpty { name: Name },
    /// Memory was asked for and not found.
    NoMemory,
}

impl fmt::Display for NickRefused {
    fn fmt<W: fmt::Write>(&self, f: &mut fmt::Formatter<W>) -> fmt::Result {
        let reason = reason(self);
        match self {
            NickRefused::IsRoot | NickRefused::NoMemory => f.write_str(reason),
            NickRefused::BadName { length } => write!(f, "{reason}{length} bytes"),
            NickRefused::NoParent { name } => write!(f, "{reason}{name}"),
            NickRefused::NameTaken { name }
            | NickRefused::NoSuch { name }
            | NickRefused::NotEmpty { name } => write!(f, "{reason}{name}"),
        }
    }
}

/// The text of `Display`, since what a derive writes for so many variants is dear to prove.
impl fmt::Debug for NickRefused {
    fn fmt<W: fmt::Write>(&self, f: &mut fmt::Formatter<W>) -> fmt::Result {
        fmt::Display::fmt(self, f)
    }
}

/// What is written before the name or the number of a refusal that has one.
fn reason(refused: &NickRefused) -> &'static str {
    match refused {
        NickRefused::IsRoot => "the root group",
        NickRefused::BadName { length: _ } => "a name of ",
        NickRefused::NoParent { name: _ } => "no such parent: ",
        NickRefused::NameTaken { name: _ } => "name taken: ",
        NickRefused::NoSuch { name: _ } => "no such name: ",
        NickRefused::NotEmpty { name: _ } => "not empty: ",
        NickRefused::NoMemory => "out of memory",
    }
}
