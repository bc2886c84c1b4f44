ghost use Rattle.std.specs.Prelude.{◌≡◌, IfOk};
ghost use Rattle.wc_complete.specs.Order.{IsInOrder, in_order};

use std::alloc::Global;
use wc_text::{Items, NoMemory, Text, fold_cmp};

/// Puts texts in order, each once.
pub(crate) fn in_order(texts: &mut Vec<Text>)
    ensures order { IsInOrder texts.old.items texts.new.items }
    ensures value { texts.new.items ≡ in_order texts.old.items }
{
    texts.sort_unstable_by(|a, b| fold_cmp(a.as_slice(), b.as_slice()));
    texts.dedup_by(|a, b| a.as_slice() == b.as_slice());
}

/// The texts as a list of items.
pub(crate) fn as_items(alloc: Global, texts: Vec<Text>) -> Result<Items<Text>, NoMemory>
    ensures { IfOk result (λ items. items ≡ texts.items) }
{
    let mut items = Items::with_room(alloc, texts.len())?;
    for text in texts {
        items.push(text)?;
    }
    Ok(items)
}
