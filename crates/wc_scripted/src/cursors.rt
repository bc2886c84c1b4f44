ghost use Rattle.std.specs.Prelude.{◌≡◌, ◌+◌, ◌<◌, ◌≤◌, length, take, drop};
ghost use Rattle.std.specs.Prelude.{◌==◌, if◌then◌else◌};
ghost use Rattle.std.specs.List.{list_any};
ghost use Rattle.wc_outside.specs.Happenings.{IsReadWithin};
ghost use Rattle.wc_scripted.specs.Scripts.{is_for};
ghost use Rattle.wc_scripted.specs.Cursors.{at_start, given_at, IsPlaced, BeginsFor};
ghost use Rattle.wc_scripted.specs.Plays.{IsFound, given_by, left, stands_next};

use crate::scripted::{Scripted, before_link};
use wc_outside::Got;
use wc_text::LinkId;

/// How far a link has come in the script.
#[derive(Clone, Copy)]
pub(crate) struct Cursor {
    /// The steps before it are passed.
    pub(crate) step: usize,
    /// How much of that step was given.
    pub(crate) given: usize,
}

impl Cursor {
    pub(crate) fn new() -> Cursor
        ensures { result ≡ at_start }
    {
        Cursor { step: 0, given: 0 }
    }

    /// Passes the steps before the next one of a link. Whether there is one.
    pub(crate) fn seek(&mut self, steps: &[Scripted], link: LinkId) -> bool
        requires { IsPlaced steps.now link.0 self.old }
        ensures placed { IsPlaced steps.now link.0 self.new }
        ensures given { given_at steps.now link.0 self.new ≡ given_at steps.now link.0 self.old }
        ensures begins { BeginsFor link.0 (drop self.new.step steps.now) }
        ensures found { result ≡ list_any (is_for link.0) (drop self.old.step steps.now) }
    {
        self.step += before_link(steps.split_at(self.step).1, link);
        self.step < steps.len()
    }

    /// Counts bytes of the next step that were given, and passes it once all of them were.
    fn pass(&mut self, count: usize, size: usize)
        requires fits { self.old.given + count ≤ size }
        requires more { self.old.step < usize.MAX }
        ensures step { self.new.step ≡ (if self.old.given + count == size
            then self.old.step + 1 else self.old.step) }
        ensures given { self.new.given ≡ (if self.old.given + count == size
            then 0 else self.old.given + count) }
    {
        self.given += count;
        if self.given == size {
            self.step += 1;
            self.given = 0;
        }
    }

    /// Gives bytes of the next step, which is the link's.
    fn give(&mut self, steps: &[Scripted], link: LinkId, into: &mut [u8]) -> Got
        requires placed { IsPlaced steps.now link.0 self.old }
        requires begins { BeginsFor link.0 (drop self.old.step steps.now) }
        requires room { 0 < length into.old }
        ensures placed { IsPlaced steps.now link.0 self.new }
        ensures found { IsFound steps.now link.0 (given_at steps.now link.0 self.old) into.new
            result }
        ensures given { given_at steps.now link.0 self.new
            ≡ given_at steps.now link.0 self.old + given_by result }
        ensures within { IsReadWithin (length into.old) result }
    {
        match steps.get(self.step) {
            Some(Scripted::Gives(_, bytes)) => {
                let rest = bytes.as_slice().split_at(self.given).1;
                let count = rest.len().min(into.len());
                into[..count].copy_from_slice(rest.split_at(count).0);
                self.pass(count, bytes.as_slice().len());
                Got::Bytes(count)
            }
            Some(Scripted::Ends(_)) => Got::End,
            Some(Scripted::Stands(_)) => Got::NotYet,
            Some(Scripted::Wake(_)) => Got::NotYet,
            Some(Scripted::Arrive(_)) => Got::NotYet,
            None => Got::NotYet,
        }
    }

    /// Gives what a read of a link finds.
    pub(crate) fn read(&mut self, steps: &[Scripted], link: LinkId, into: &mut [u8]) -> Got
        requires placed { IsPlaced steps.now link.0 self.old }
        requires room { 0 < length into.old }
        ensures placed { IsPlaced steps.now link.0 self.new }
        ensures found { IsFound steps.now link.0 (given_at steps.now link.0 self.old) into.new
            result }
        ensures given { given_at steps.now link.0 self.new
            ≡ given_at steps.now link.0 self.old + given_by result }
        ensures within { IsReadWithin (length into.old) result }
    {
        self.seek(steps, link);
        self.give(steps, link, into)
    }
    /// Passes that a link's connection stands, where the next step, which is the link's, says so.
    fn stand(&mut self, steps: &[Scripted], link: LinkId) -> bool
        requires placed { IsPlaced steps.now link.0 self.old }
        requires begins { BeginsFor link.0 (drop self.old.step steps.now) }
        ensures placed { IsPlaced steps.now link.0 self.new }
        ensures found { result
            ≡ stands_next (left steps.now link.0 (given_at steps.now link.0 self.old)) }
        ensures given { given_at steps.now link.0 self.new
            ≡ given_at steps.now link.0 self.old + (if result then 1 else 0) }
    {
        match steps.get(self.step) {
            Some(Scripted::Stands(_)) => {
                self.step += 1;
                true
            }
            Some(Scripted::Wake(_)) => false,
            Some(Scripted::Arrive(_)) => false,
            Some(Scripted::Gives(_, _)) => false,
            Some(Scripted::Ends(_)) => false,
            None => false,
        }
    }

    /// Whether it is next of a link that its connection stands, which is passed then.
    pub(crate) fn stands(&mut self, steps: &[Scripted], link: LinkId) -> bool
        requires placed { IsPlaced steps.now link.0 self.old }
        ensures placed { IsPlaced steps.now link.0 self.new }
        ensures found { result
            ≡ stands_next (left steps.now link.0 (given_at steps.now link.0 self.old)) }
        ensures given { given_at steps.now link.0 self.new
            ≡ given_at steps.now link.0 self.old + (if result then 1 else 0) }
    {
        self.seek(steps, link);
        self.stand(steps, link)
    }
}
