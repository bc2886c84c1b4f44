ghost use Rattle.std.specs.Prelude.{◌≡◌};
ghost use Rattle.std.specs.Iterator.{YieldsFirstRef, item_count};

use crate::group::Group;
use std::marker::Model;
use wc_text::Handle;

/// The groups that are still to come, each as the handles of its buffers.
#[derive(Drop)]
pub struct GroupIter<'a> {
    groups: &'a [Group],
}

impl<'a> Model for GroupIter<'a> {
    ghost use Rattle.std.specs.Prelude.{List};
    ghost use Rattle.wc_text.specs.declared.names.Handle.{Handle};

    ghost Value = { List (List Handle) };

    ghost view = { λ a. a.groups.now };
}

impl<'a> GroupIter<'a> {
    pub(crate) fn new(groups: &'a [Group]) -> GroupIter<'a>
        ensures { result ≡ groups.now }
    {
        GroupIter { groups }
    }
}

impl<'a> Iterator for GroupIter<'a> {
    type Item = &'a [Handle];

    ghost next_gives = { YieldsFirstRef (λ s. s) };

    ghost remaining = { item_count (λ s. s) };

    fn next(&mut self) -> Option<&'a [Handle]> {
        let (group, groups) = self.groups.split_first()?;
        self.groups = groups;
        Some(group.as_slice())
    }
}
