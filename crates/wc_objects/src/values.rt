//! The objects of a message, read from left to right.

ghost use Rattle.std.specs.Prelude.{◌≡◌, Some, None, length, IfOk, option_map};
ghost use Rattle.wc_objects.specs.Reading.{GivesValue, same_value, times, counted_at, simple_at};
ghost use Rattle.wc_objects.specs.Reading.{pair_at, table_at, array_at, value_at, values_at};
ghost use Rattle.wc_objects.specs.Reading.{pointer_at, item_at, items_by, depth_of, hda_after};
ghost use Rattle.wc_objects.specs.Reading.{hda_at, inf_at, variable_at, inl_at, whole_at};
ghost use Rattle.wc_objects.specs.Reading.{object_at};
ghost use Rattle.wc_objects.specs.Forms.{kinds_of};

use crate::fault::{ReadError, Rule};
use crate::keys::{all_keys, first_key, path_depth};
use crate::kind::Kind;
use crate::object::{Hda, HdaItem, InlVar, Object};
use crate::reader::Reader;
use std::alloc::Global;
use wc_text::{Items, NoMemory, Text};

impl Reader<'_> {
    /// A value of a type that holds no others.
    #[tactic(auto, unfolding(crate::specs::Reading::simple_at))]
    fn simple(&mut self, alloc: Global, kind: Kind) -> Result<Object, ReadError>
        ensures { GivesValue same_value result self.new.bytes.now
            (simple_at kind self.old.bytes.now) }
    {
        match kind {
            Kind::Chr => self.byte().map(Object::Chr),
            Kind::Int => self.int().map(Object::Int),
            Kind::Lon => self.decimal().map(Object::Lon),
            Kind::Str => self.str_value(alloc),
            Kind::Buf => self.buf_value(alloc),
            Kind::Ptr => self.pointer().map(Object::Ptr),
            Kind::Tim => self.decimal().map(Object::Tim),
            Kind::Htb | Kind::Hda | Kind::Inf | Kind::Inl | Kind::Arr => {
                Err(ReadError::Broken(self.bytes.len()))
            }
        }
    }

    #[tactic(auto, unfolding(crate::specs::Reading::simple_at))]
    fn str_value(&mut self, alloc: Global) -> Result<Object, ReadError>
        ensures { GivesValue same_value result self.new.bytes.now
            (simple_at Kind.Str self.old.bytes.now) }
    {
        Ok(Object::Str(self.text(alloc, Rule::Plain)?))
    }

    #[tactic(auto, unfolding(crate::specs::Reading::simple_at))]
    fn buf_value(&mut self, alloc: Global) -> Result<Object, ReadError>
        ensures { GivesValue same_value result self.new.bytes.now
            (simple_at Kind.Buf self.old.bytes.now) }
    {
        Ok(Object::Buf(self.text(alloc, Rule::Plain)?))
    }

    #[tactic(auto, unfolding(crate::specs::Reading::pair_at))]
    fn pair(&mut self, alloc: Global, key: Kind, value: Kind) -> Result<(Object, Object), ReadError>
        ensures { GivesValue same_value result self.new.bytes.now
            (pair_at key value self.old.bytes.now) }
    {
        let first = self.simple(alloc, key)?;
        match self.simple(alloc, value) {
            Ok(second) => Ok((first, second)),
            Err(error) => {
                drop(first);
                Err(error)
            }
        }
    }

    fn pairs(
        &mut self,
        alloc: Global,
        key: Kind,
        value: Kind,
        count: u32,
    ) -> Result<Items<(Object, Object)>, ReadError>
        ensures { GivesValue same_value result self.new.bytes.now
            (times count (pair_at key value) self.old.bytes.now) }
    {
        let mut items = Items::new(alloc);
        for _ in 0..count {
            let item = self.pair(alloc, key, value)?;
            items.push(item)?;
        }
        Ok(items)
    }

    fn simple_values(
        &mut self,
        alloc: Global,
        kind: Kind,
        count: u32,
    ) -> Result<Items<Object>, ReadError>
        ensures { GivesValue same_value result self.new.bytes.now
            (times count (simple_at kind) self.old.bytes.now) }
    {
        let mut items = Items::new(alloc);
        for _ in 0..count {
            let item = self.simple(alloc, kind)?;
            items.push(item)?;
        }
        Ok(items)
    }

    /// A table, after the letters of its type.
    #[tactic(auto, unfolding(crate::specs::Reading::table_at, crate::specs::Reading::counted_at))]
    fn table(&mut self, alloc: Global) -> Result<Object, ReadError>
        ensures { GivesValue same_value result self.new.bytes.now (table_at self.old.bytes.now) }
    {
        let key = self.simple_kind()?;
        let value = self.simple_kind()?;
        let count = self.count()?;
        let pairs = self.pairs(alloc, key, value, count)?;
        Ok(Object::Htb { key, value, pairs })
    }

    /// An array, after the letters of its type.
    #[tactic(auto, unfolding(crate::specs::Reading::array_at, crate::specs::Reading::counted_at))]
    fn array(&mut self, alloc: Global) -> Result<Object, ReadError>
        ensures { GivesValue same_value result self.new.bytes.now (array_at self.old.bytes.now) }
    {
        let kind = self.simple_kind()?;
        let count = self.count()?;
        let values = self.simple_values(alloc, kind, count)?;
        Ok(Object::Arr { kind, values })
    }

    /// A value of an `hda`.
    #[tactic(auto, unfolding(crate::specs::Reading::value_at))]
    fn value(&mut self, alloc: Global, kind: Kind) -> Result<Object, ReadError>
        ensures { GivesValue same_value result self.new.bytes.now
            (value_at kind self.old.bytes.now) }
    {
        match kind {
            Kind::Htb => self.table(alloc),
            Kind::Arr => self.array(alloc),
            Kind::Chr
            | Kind::Int
            | Kind::Lon
            | Kind::Str
            | Kind::Buf
            | Kind::Ptr
            | Kind::Tim
            | Kind::Hda
            | Kind::Inf
            | Kind::Inl => self.simple(alloc, kind),
        }
    }

    fn pointers(&mut self, alloc: Global, count: usize) -> Result<Items<u64>, ReadError>
        ensures { GivesValue same_value result self.new.bytes.now
            (times count pointer_at self.old.bytes.now) }
    {
        let mut items = Items::new(alloc);
        for _ in 0..count {
            let item = self.pointer()?;
            items.push(item)?;
        }
        Ok(items)
    }

    /// A value of each type.
    fn item_values(&mut self, alloc: Global, kinds: &[Kind]) -> Result<Items<Object>, ReadError>
        ensures { GivesValue same_value result self.new.bytes.now
            (values_at kinds.now self.old.bytes.now) }
    {
        let mut items = Items::new(alloc);
        for kind in kinds {
            let item = self.value(alloc, *kind)?;
            items.push(item)?;
        }
        Ok(items)
    }

    /// An item of an `hda`.
    #[tactic(auto, unfolding(crate::specs::Reading::item_at))]
    fn item(&mut self, alloc: Global, depth: usize, kinds: &[Kind]) -> Result<HdaItem, ReadError>
        ensures { GivesValue same_value result self.new.bytes.now
            (item_at depth kinds.now self.old.bytes.now) }
    {
        let pointers = self.pointers(alloc, depth)?;
        let values = self.item_values(alloc, kinds)?;
        Ok(HdaItem { pointers, values })
    }

    fn items(
        &mut self,
        alloc: Global,
        depth: usize,
        kinds: &[Kind],
        count: u32,
    ) -> Result<Items<HdaItem>, ReadError>
        ensures { GivesValue same_value result self.new.bytes.now
            (times count (item_at depth kinds.now) self.old.bytes.now) }
    {
        let mut items = Items::new(alloc);
        for _ in 0..count {
            let item = self.item(alloc, depth, kinds)?;
            items.push(item)?;
        }
        Ok(items)
    }

    /// The count and the items of an `hda` with a path and keys.
    #[tactic(auto, unfolding(crate::specs::Reading::counted_at))]
    fn list_of(
        &mut self,
        alloc: Global,
        path: &[u8],
        keys: &[u8],
    ) -> Result<Items<HdaItem>, ReadError>
        ensures { GivesValue same_value result self.new.bytes.now
            (items_by (depth_of path.now) (kinds_of keys.now) self.old.bytes.now) }
    {
        let Some(depth) = path_depth(path) else {
            return Err(ReadError::Broken(self.bytes.len()));
        };
        let Some(kinds) = all_kinds(alloc, keys)? else {
            return Err(ReadError::Broken(self.bytes.len()));
        };
        let count = self.count()?;
        self.items(alloc, depth, kinds.as_slice(), count)
    }

    /// The null hdata after its path.
    fn null_hda(&mut self, alloc: Global) -> Result<Hda, ReadError>
        ensures { GivesValue same_value result self.new.bytes.now
            (hda_after None self.old.bytes.now) }
    {
        self.null()?;
        let before = self.bytes.len();
        let count = self.count()?;
        if count != 0 {
            return Err(ReadError::Broken(before));
        }
        Ok(Hda {
            path: None,
            keys: None,
            items: Items::new(alloc),
        })
    }

    /// An hdata after its path.
    fn hda_on(&mut self, alloc: Global, path: Text) -> Result<Hda, ReadError>
        ensures { GivesValue same_value result self.new.bytes.now
            (hda_after (Some path) self.old.bytes.now) }
    {
        let keys = self.name(alloc, Rule::Keys)?;
        let items = self.list_of(alloc, path.as_slice(), keys.as_slice())?;
        Ok(Hda {
            path: Some(path),
            keys: Some(keys),
            items,
        })
    }

    #[tactic(auto, unfolding(crate::specs::Reading::hda_at))]
    fn hda(&mut self, alloc: Global) -> Result<Hda, ReadError>
        ensures { GivesValue same_value result self.new.bytes.now (hda_at self.old.bytes.now) }
    {
        match self.text(alloc, Rule::Path)? {
            Some(path) => self.hda_on(alloc, path),
            None => self.null_hda(alloc),
        }
    }

    #[tactic(auto, unfolding(crate::specs::Reading::inf_at))]
    fn inf(&mut self, alloc: Global) -> Result<Object, ReadError>
        ensures { GivesValue same_value result self.new.bytes.now (inf_at self.old.bytes.now) }
    {
        let name = self.name(alloc, Rule::Plain)?;
        let value = self.text(alloc, Rule::Plain)?;
        Ok(Object::Inf {
            name: Some(name),
            value,
        })
    }

    /// A variable of an `inl`.
    #[tactic(auto, unfolding(crate::specs::Reading::variable_at))]
    fn variable(&mut self, alloc: Global) -> Result<InlVar, ReadError>
        ensures { GivesValue same_value result self.new.bytes.now (variable_at self.old.bytes.now) }
    {
        let name = self.name(alloc, Rule::Plain)?;
        let kind = self.simple_kind()?;
        let value = self.simple(alloc, kind)?;
        Ok(InlVar { name, value })
    }

    fn variables_of(&mut self, alloc: Global, count: u32) -> Result<Items<InlVar>, ReadError>
        ensures { GivesValue same_value result self.new.bytes.now
            (times count variable_at self.old.bytes.now) }
    {
        let mut items = Items::new(alloc);
        for _ in 0..count {
            let item = self.variable(alloc)?;
            items.push(item)?;
        }
        Ok(items)
    }

    #[tactic(auto, unfolding(crate::specs::Reading::counted_at))]
    fn variables(&mut self, alloc: Global) -> Result<Items<InlVar>, ReadError>
        ensures { GivesValue same_value result self.new.bytes.now
            (counted_at variable_at self.old.bytes.now) }
    {
        let count = self.count()?;
        self.variables_of(alloc, count)
    }

    fn lists(&mut self, alloc: Global, count: u32) -> Result<Items<Items<InlVar>>, ReadError>
        ensures { GivesValue same_value result self.new.bytes.now
            (times count (counted_at variable_at) self.old.bytes.now) }
    {
        let mut items = Items::new(alloc);
        for _ in 0..count {
            let item = self.variables(alloc)?;
            items.push(item)?;
        }
        Ok(items)
    }

    #[tactic(auto, unfolding(crate::specs::Reading::inl_at, crate::specs::Reading::counted_at))]
    fn inl(&mut self, alloc: Global) -> Result<Object, ReadError>
        ensures { GivesValue same_value result self.new.bytes.now (inl_at self.old.bytes.now) }
    {
        let name = self.name(alloc, Rule::Plain)?;
        let count = self.count()?;
        let items = self.lists(alloc, count)?;
        Ok(Object::Inl { name, items })
    }

    /// An object after the letters of its type.
    #[tactic(auto, unfolding(crate::specs::Reading::whole_at))]
    fn whole(&mut self, alloc: Global, kind: Kind) -> Result<Object, ReadError>
        ensures { GivesValue same_value result self.new.bytes.now
            (whole_at kind self.old.bytes.now) }
    {
        match kind {
            Kind::Hda => Ok(Object::Hda(self.hda(alloc)?)),
            Kind::Inf => self.inf(alloc),
            Kind::Inl => self.inl(alloc),
            Kind::Chr
            | Kind::Int
            | Kind::Lon
            | Kind::Str
            | Kind::Buf
            | Kind::Ptr
            | Kind::Tim
            | Kind::Htb
            | Kind::Arr => self.value(alloc, kind),
        }
    }

    /// An object.
    #[tactic(auto, unfolding(crate::specs::Reading::object_at))]
    pub fn object(&mut self, alloc: Global) -> Result<Object, ReadError>
        ensures { GivesValue same_value result self.new.bytes.now (object_at self.old.bytes.now) }
    {
        let kind = self.kind()?;
        self.whole(alloc, kind)
    }
}

/// The types that the keys of an `hda` name, where the bytes are keys.
fn all_kinds(alloc: Global, keys: &[u8]) -> Result<Option<Vec<Kind>>, NoMemory>
    ensures { IfOk result (λ found. option_map (λ kinds. kinds.items) found ≡ kinds_of keys.now) }
{
    let mut kinds = Vec::new(alloc);
    let mut left = all_keys(keys);
    while let Some(text) = left {
        let Some((kind, rest)) = first_key(text) else {
            return Ok(None);
        };
        let Ok(()) = kinds.push(kind) else {
            return Err(NoMemory);
        };
        left = rest;
    }
    Ok(Some(kinds))
}
