ghost use Rattle.std.specs.Prelude.{◌≡◌, ◌∷◌, []};

use std::alloc::Global;
use std::marker::Model;
use wc_text::Items;

/// One value in its place, or a list in memory of its own.
#[derive(Drop)]
enum Kept<T> {
    One([T; 1]),
    Many(Items<T>),
}

/// A list that mostly has one value at most, for which it takes no memory. Contracts see it as that
/// list.
#[derive(Drop)]
pub struct Few<T> {
    kept: Kept<T>,
}

impl<T> Model for Few<T> {
    ghost use Rattle.std.specs.Prelude.{List};
    ghost use Rattle.std.specs.Coded.{coded_list};
    ghost use Rattle.wc_model.specs.Few.{kept_items};

    ghost Value = { List T };

    ghost coded = { coded_list T.code };

    ghost view = { λ few. kept_items few.kept };
}

impl<T> Few<T> {
    /// The empty list. It takes no memory.
    pub fn none(alloc: Global) -> Few<T>
        ensures { result ≡ [] }
    {
        Few::many(Items::new(alloc))
    }

    /// The list of one value. It takes no memory.
    pub fn one(item: T) -> Few<T>
        ensures { result ≡ item ∷ [] }
    {
        Few {
            kept: Kept::One([item]),
        }
    }

    /// The list of these values.
    pub fn many(items: Items<T>) -> Few<T>
        ensures { result ≡ items }
    {
        Few {
            kept: Kept::Many(items),
        }
    }

    /// The values, in order.
    pub fn as_slice(&self) -> &[T]
        ensures { result.now ≡ self.now }
    {
        match &self.kept {
            Kept::One(one) => one.as_slice(),
            Kept::Many(items) => items.as_slice(),
        }
    }
}
