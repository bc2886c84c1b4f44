ghost use Rattle.std.specs.Prelude.{◌≡◌, ◌<◌, None, IfOk, length, slice_index_or};
ghost use Rattle.std.specs.Option.{option_copied};
ghost use Rattle.wc_options.specs.Options.{fresh_server, own_at_first, with_own, stands_for};
ghost use Rattle.wc_options.specs.Table.{of_server, row_at};

use std::alloc::Global;
use std::marker::Model;
use wc_text::{NoMemory, Text};

/// How many options a server has.
const COUNT: usize = 12;

/// The place of `addresses` among them.
const ADDRESSES: usize = 0;

/// A server and the values of its options, in the order of the table.
#[derive(Drop)]
pub(crate) struct Server {
    name: Text,
    own: Vec<Option<Text>>,
}

impl Model for Server {
    ghost use Rattle.wc_options.specs.Options.{ServerOptions};

    ghost Value = { ServerOptions };

    ghost view = { λ s. record { name = s.name; own = s.own.items } };
}

/// The first value of an option of a server.
#[tactic(auto, using(crate::proofs::TableLemmas::first_values))]
pub(crate) fn own_at_first(alloc: Global, place: usize) -> Option<Text>
    requires { place < 12 }
    ensures { result ≡ own_at_first (row_at of_server place) }
{
    if place == ADDRESSES {
        return Some(Text::new(alloc));
    }
    None
}

/// The places of the options of the program whose values the options of a server take where they
/// have none of their own.
const STANDS_FOR: [Option<usize>; 12] = [
    None,
    Some(8),
    Some(10),
    Some(9),
    Some(11),
    Some(12),
    Some(13),
    Some(14),
    Some(15),
    Some(16),
    Some(17),
    Some(18),
];

/// The option of the program that an option of a server stands for, by their places.
pub(crate) fn stands_for(place: usize) -> Option<usize>
    requires { place < 12 }
    ensures { result ≡ stands_for (row_at of_server place) }
{
    STANDS_FOR[place]
}

impl Server {
    /// A server with the first values of all its options.
    #[tactic(auto, using(crate::proofs::TableLemmas::firsts))]
    pub(crate) fn new(alloc: Global, name: &[u8]) -> Result<Server, NoMemory>
        ensures { IfOk result (λ server. server ≡ fresh_server name.now) }
    {
        let name = Text::from_slice(alloc, name)?;
        let mut own = Vec::with_capacity(alloc, COUNT)?;
        for place in 0..COUNT {
            let Ok(()) = own.push(own_at_first(alloc, place)) else {
                return Err(NoMemory);
            };
        }
        Ok(Server { name, own })
    }

    pub(crate) fn name(&self) -> &[u8]
        ensures { result.now ≡ self.now.name }
    {
        self.name.as_slice()
    }

    /// The value of its own that an option has.
    pub(crate) fn own(&self, place: usize) -> Option<&Text>
        ensures { option_copied result ≡ slice_index_or self.now.own place None }
    {
        self.own.get(place)?.as_ref()
    }

    /// The values of all its options, where they have one of their own.
    pub(crate) fn all_own(&self) -> &[Option<Text>]
        ensures { result.now ≡ self.now.own }
    {
        self.own.as_slice()
    }

    pub(crate) fn put(&mut self, place: usize, value: Option<Text>)
        requires { place < length self.old.own }
        ensures { self.new ≡ with_own place value self.old }
    {
        self.own[place] = value;
    }
}
