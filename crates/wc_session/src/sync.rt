ghost use Rattle.std.specs.Prelude.{◌≡◌, OnOk, OnErr};
ghost use Rattle.wc_session.specs.Sync.{at_each, put_to, without_options, synchronized};
ghost use Rattle.wc_session.specs.Sync.{desynchronized};

use crate::buffer_sets::BufferSets;
use crate::client::Client;
use crate::names::buffer_named;
use crate::sync_set::{SyncSet, has};
use std::alloc::Global;
use wc_buffers::Buffers;
use wc_text::{Items, NoMemory, Text};

/// Puts options to the sets of the buffers that are named. A buffer that is not there is passed
/// over.
fn put_each(
    sets: &mut BufferSets,
    buffers: &Buffers,
    names: &[Text],
    options: SyncSet,
) -> Result<(), NoMemory>
    ensures { OnOk result (sets.new ≡ at_each buffers.now (put_to options) sets.old names.now) }
{
    for name in names {
        if let Some(buffer) = buffer_named(buffers, name.as_slice()) {
            sets.put(options, buffer)?;
        }
    }
    Ok(())
}

/// Takes options from the sets of the buffers that are named. A buffer that is not there is passed
/// over.
fn take_each(sets: &mut BufferSets, buffers: &Buffers, names: &[Text], options: SyncSet)
    ensures { sets.new ≡ at_each buffers.now (without_options options) sets.old names.now }
{
    for name in names {
        if let Some(buffer) = buffer_named(buffers, name.as_slice()) {
            sets.take(options, buffer);
        }
    }
}

/// Serves `sync`: the options are put to the set for all buffers, where `*` is among the names, and
/// to the sets of the buffers that are named. Where memory is refused the client stays as it was.
#[tactic(auto, unfolding(crate::specs::Sync::synchronized))]
pub fn synchronize(
    alloc: Global,
    client: &mut Client,
    buffers: &Buffers,
    names: &Items<Text>,
    options: &Option<Items<Text>>,
) -> Result<(), NoMemory>
    ensures ok { OnOk result (client.new ≡ synchronized buffers.now client.old names.now
        options.now) }
    ensures err { OnErr result (client.new ≡ client.old) }
{
    let options = SyncSet::asked(options);
    let mut sets = client.sets.copy(alloc)?;
    put_each(&mut sets, buffers, names.as_slice(), options.of_buffer())?;
    client.sets = sets;
    if has(names.as_slice(), b"*") {
        client.everywhere = client.everywhere.union(options);
    }
    Ok(())
}

/// Serves `desync`: the options are taken from the set for all buffers, where `*` is among the
/// names, and from the sets of the buffers that are named. It takes no memory.
#[tactic(auto, unfolding(crate::specs::Sync::desynchronized))]
pub fn desynchronize(
    client: &mut Client,
    buffers: &Buffers,
    names: &Items<Text>,
    options: &Option<Items<Text>>,
)
    ensures { client.new ≡ desynchronized buffers.now client.old names.now options.now }
{
    let options = SyncSet::asked(options);
    take_each(
        &mut client.sets,
        buffers,
        names.as_slice(),
        options.of_buffer(),
    );
    if has(names.as_slice(), b"*") {
        client.everywhere = client.everywhere.difference(options);
    }
}
