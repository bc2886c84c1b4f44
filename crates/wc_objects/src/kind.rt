ghost use Rattle.std.specs.Prelude.{◌≡◌};
ghost use Rattle.wc_objects.specs.Kinds.{index, letters, same, is_simple, is_value, kind_of};

use crate::object::Object;

/// The type of an object, which three letters name in a message.
#[derive(Clone, Copy, Debug, PartialEq, Eq)]
pub enum Kind {
    /// `chr`, a signed byte.
    Chr,
    /// `int`, a signed number of four bytes.
    Int,
    /// `lon`, a signed number in decimal.
    Lon,
    /// `str`, a text or null.
    Str,
    /// `buf`, like `str`.
    Buf,
    /// `ptr`, a pointer in hex.
    Ptr,
    /// `tim`, a moment in decimal.
    Tim,
    /// `htb`, a table of keys and values.
    Htb,
    /// `hda`, a list of items on a path.
    Hda,
    /// `inf`, a name and its value.
    Inf,
    /// `inl`, a named list of items.
    Inl,
    /// `arr`, a list of values of one type.
    Arr,
}

impl Kind {
    /// The type of an object.
    pub fn of(object: &Object) -> Kind
        ensures { result ≡ kind_of object.now }
    {
        match object {
            Object::Chr(_) => Kind::Chr,
            Object::Int(_) => Kind::Int,
            Object::Lon(_) => Kind::Lon,
            Object::Str(_) => Kind::Str,
            Object::Buf(_) => Kind::Buf,
            Object::Ptr(_) => Kind::Ptr,
            Object::Tim(_) => Kind::Tim,
            Object::Htb { .. } => Kind::Htb,
            Object::Hda(_) => Kind::Hda,
            Object::Inf { .. } => Kind::Inf,
            Object::Inl { .. } => Kind::Inl,
            Object::Arr { .. } => Kind::Arr,
        }
    }

    /// The three letters that name the type.
    pub fn letters(self) -> &'static [u8; 3]
        ensures { result.now ≡ letters self }
    {
        match self {
            Kind::Chr => b"chr",
            Kind::Int => b"int",
            Kind::Lon => b"lon",
            Kind::Str => b"str",
            Kind::Buf => b"buf",
            Kind::Ptr => b"ptr",
            Kind::Tim => b"tim",
            Kind::Htb => b"htb",
            Kind::Hda => b"hda",
            Kind::Inf => b"inf",
            Kind::Inl => b"inl",
            Kind::Arr => b"arr",
        }
    }

    /// Whether two types are the same.
    pub fn is(self, other: Kind) -> bool
        ensures { result ≡ same self other }
    {
        self.index() == other.index()
    }

    fn index(self) -> u8
        ensures { result ≡ index self }
    {
        self as u8
    }

    /// Whether arrays and tables are made of this type: its values hold no other objects.
    pub fn is_simple(self) -> bool
        ensures { result ≡ is_simple self }
    {
        !matches!(
            self,
            Kind::Htb | Kind::Hda | Kind::Inf | Kind::Inl | Kind::Arr
        )
    }

    /// Whether the values of an `hda` may be of this type.
    pub fn is_value(self) -> bool
        ensures { result ≡ is_value self }
    {
        self.is_simple() || self.is(Kind::Htb) || self.is(Kind::Arr)
    }
}
