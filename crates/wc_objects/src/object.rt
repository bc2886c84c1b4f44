use crate::kind::Kind;
use wc_text::{Items, Text};

/// A typed value of a message, in WeeChat's relay protocol.
///
/// Any value may be made; `well_formed` tells which ones a message may hold.
#[cycle(object)]
#[derive(Drop)]
pub enum Object {
    Chr(i8),
    Int(i32),
    Lon(i64),
    Str(Option<Text>),
    Buf(Option<Text>),
    Ptr(u64),
    Tim(i64),
    Htb {
        key: Kind,
        value: Kind,
        pairs: Items<(Object, Object)>,
    },
    Hda(Hda),
    Inf {
        name: Option<Text>,
        value: Option<Text>,
    },
    Inl {
        name: Text,
        items: Items<Items<InlVar>>,
    },
    Arr {
        kind: Kind,
        values: Items<Object>,
    },
}

/// The items on a path, each with the values that the keys name.
#[cycle(object)]
#[derive(Drop)]
pub struct Hda {
    pub path: Option<Text>,
    pub keys: Option<Text>,
    pub items: Items<HdaItem>,
}

/// One item: a pointer for each element of the path, and a value for each key.
#[cycle(object)]
#[derive(Drop)]
pub struct HdaItem {
    pub pointers: Items<u64>,
    pub values: Items<Object>,
}

/// A variable of an item of an `inl`.
#[cycle(object)]
#[derive(Drop)]
pub struct InlVar {
    pub name: Text,
    pub value: Object,
}

/// A message: its id and its objects.
#[derive(Drop)]
pub struct WireMessage {
    pub id: Text,
    pub objects: Items<Object>,
}
