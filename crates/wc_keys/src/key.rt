ghost use Rattle.std.specs.Prelude.{◌≡◌, true, false};
ghost use Rattle.wc_keys.specs.Keys.{key_name, kind_of_key, is_own, same_key, keys_in, list_text};

use wc_objects::Kind;

/// A value that an hdata gives, under the name of WeeChat's relay protocol.
#[derive(Clone, Copy, Debug, PartialEq, Eq)]
pub enum Key {
    /// `number`, the number of a buffer.
    Number,
    /// `full_name`, the name of a buffer after that of its plugin.
    FullName,
    /// `short_name`, the name of a buffer that the list of buffers shows.
    ShortName,
    /// `hidden`, whether a buffer is hidden.
    Hidden,
    /// `title`, the title of a buffer.
    Title,
    /// `local_variables`, the local variables of a buffer.
    LocalVariables,
    /// `prev_buffer`, the buffer before this one.
    PrevBuffer,
    /// `next_buffer`, the buffer after this one.
    NextBuffer,
    /// `type`, the kind of content of a buffer.
    BufferType,
    /// `notify`, how much the lines of a buffer call for notice.
    Notify,
    /// `nicklist`, whether a buffer shows nicks.
    Nicklist,
    /// `first_line`, the first of the lines.
    FirstLine,
    /// `last_line`, the last of the lines.
    LastLine,
    /// `lines_count`, how many lines there are.
    LinesCount,
    /// `data`, what a line says.
    Data,
    /// `buffer`, the buffer of a line.
    Buffer,
    /// `id`, the number of a line in its buffer.
    Id,
    /// `date`, the date of a line.
    Date,
    /// `date_usec`, the microseconds of that date.
    DateUsec,
    /// `date_printed`, when a line was printed.
    DatePrinted,
    /// `date_usec_printed`, the microseconds of that date.
    DateUsecPrinted,
    /// `displayed`, whether a line is shown.
    Displayed,
    /// `notify_level`, how much a line calls for notice.
    NotifyLevel,
    /// `highlight`, whether a line is highlighted.
    Highlight,
    /// `tags_array`, the tags of a line.
    TagsArray,
    /// `prefix`, what is before the message of a line or before a nick.
    Prefix,
    /// `message`, the message of a line.
    Message,
    /// `_diff`, what became of a group or a nick.
    Diff,
    /// `group`, whether it is a group and no nick.
    Group,
    /// `visible`, whether a group or a nick is shown.
    Visible,
    /// `level`, how deep a group is in others.
    Level,
    /// `name`, the name of a group or a nick, and that of a buffer without its plugin.
    Name,
    /// `color`, the color of a group or a nick.
    Color,
    /// `prefix_color`, the color of what is before a nick.
    PrefixColor,
    /// `priority`, the greatest level of the lines of a buffer that were not read.
    Priority,
    /// `count`, how many lines of a buffer were not read, for each level.
    Unread,
    /// `count`, how many of the oldest lines of a buffer went.
    Trimmed,
    /// `context`, what a word that is to be completed is.
    Context,
    /// `base_word`, the word that is to be completed.
    BaseWord,
    /// `pos_start`, where that word begins.
    PosStart,
    /// `pos_end`, the place after that word.
    PosEnd,
    /// `list`, the words that complete it.
    List,
}

/// How a key is written, the type of its values, and whether it is a key of our own of buffers.
#[derive(Clone, Copy)]
struct KeyRow {
    name: &'static [u8],
    kind: Kind,
    is_own: bool,
}

fn row(name: &'static [u8], kind: Kind) -> KeyRow
    ensures name { result.name.now ≡ name.now }
    ensures kind { result.kind ≡ kind }
    ensures own { result.is_own ≡ false }
{
    KeyRow {
        name,
        kind,
        is_own: false,
    }
}

/// The row of a key of our own of buffers.
fn own_row(name: &'static [u8], kind: Kind) -> KeyRow
    ensures name { result.name.now ≡ name.now }
    ensures kind { result.kind ≡ kind }
    ensures own { result.is_own ≡ true }
{
    KeyRow {
        name,
        kind,
        is_own: true,
    }
}

impl Key {
    /// Each key once: its name, the type of its values, and whether it is our own.
    fn row(self) -> KeyRow
        ensures name { result.name.now ≡ key_name self }
        ensures kind { result.kind ≡ kind_of_key self }
        ensures own { result.is_own ≡ is_own self }
    {
        match self {
            Key::Number => row(b"number", Kind::Int),
            Key::FullName => row(b"full_name", Kind::Str),
            Key::ShortName => row(b"short_name", Kind::Str),
            Key::Hidden => row(b"hidden", Kind::Int),
            Key::Title => row(b"title", Kind::Str),
            Key::LocalVariables => row(b"local_variables", Kind::Htb),
            Key::PrevBuffer => row(b"prev_buffer", Kind::Ptr),
            Key::NextBuffer => row(b"next_buffer", Kind::Ptr),
            Key::BufferType => own_row(b"type", Kind::Int),
            Key::Notify => own_row(b"notify", Kind::Int),
            Key::Nicklist => own_row(b"nicklist", Kind::Int),
            Key::FirstLine => row(b"first_line", Kind::Ptr),
            Key::LastLine => row(b"last_line", Kind::Ptr),
            Key::LinesCount => row(b"lines_count", Kind::Int),
            Key::Data => row(b"data", Kind::Ptr),
            Key::Buffer => row(b"buffer", Kind::Ptr),
            Key::Id => row(b"id", Kind::Int),
            Key::Date => row(b"date", Kind::Tim),
            Key::DateUsec => row(b"date_usec", Kind::Int),
            Key::DatePrinted => row(b"date_printed", Kind::Tim),
            Key::DateUsecPrinted => row(b"date_usec_printed", Kind::Int),
            Key::Displayed => row(b"displayed", Kind::Chr),
            Key::NotifyLevel => row(b"notify_level", Kind::Chr),
            Key::Highlight => row(b"highlight", Kind::Chr),
            Key::TagsArray => row(b"tags_array", Kind::Arr),
            Key::Prefix => row(b"prefix", Kind::Str),
            Key::Message => row(b"message", Kind::Str),
            Key::Diff => row(b"_diff", Kind::Chr),
            Key::Group => row(b"group", Kind::Chr),
            Key::Visible => row(b"visible", Kind::Chr),
            Key::Level => row(b"level", Kind::Int),
            Key::Name => own_row(b"name", Kind::Str),
            Key::Color => row(b"color", Kind::Str),
            Key::PrefixColor => row(b"prefix_color", Kind::Str),
            Key::Priority => row(b"priority", Kind::Int),
            Key::Unread => row(b"count", Kind::Arr),
            Key::Trimmed => row(b"count", Kind::Int),
            Key::Context => row(b"context", Kind::Str),
            Key::BaseWord => row(b"base_word", Kind::Str),
            Key::PosStart => row(b"pos_start", Kind::Int),
            Key::PosEnd => row(b"pos_end", Kind::Int),
            Key::List => row(b"list", Kind::Arr),
        }
    }

    /// How the key is written.
    pub fn name(self) -> &'static [u8]
        ensures { result.now ≡ key_name self }
    {
        self.row().name
    }

    /// The type of the key's values.
    pub fn kind(self) -> Kind
        ensures { result ≡ kind_of_key self }
    {
        self.row().kind
    }

    /// Whether it is a key of our own of buffers, which is told only where a request names it.
    pub fn is_own(self) -> bool
        ensures { result ≡ is_own self }
    {
        self.row().is_own
    }

    /// Whether two keys are written the same. No list has two such, so that two keys of one list are
    /// then the same.
    pub fn is(self, other: Key) -> bool
        ensures { result ≡ same_key self other }
    {
        self.name() == other.name()
    }
}

// The longer lists, and their texts.

const BUFFER: &[Key] = &[
    Key::Number,
    Key::FullName,
    Key::ShortName,
    Key::Hidden,
    Key::Title,
    Key::LocalVariables,
    Key::PrevBuffer,
    Key::NextBuffer,
    Key::Name,
    Key::BufferType,
    Key::Notify,
    Key::Nicklist,
];

const BUFFER_TEXT: &[u8] =
    b"number:int,full_name:str,short_name:str,hidden:int,title:str,local_variables:htb,\
prev_buffer:ptr,next_buffer:ptr,name:str,type:int,notify:int,nicklist:int";

const OPENED: &[Key] = &[
    Key::Number,
    Key::FullName,
    Key::ShortName,
    Key::Hidden,
    Key::Title,
    Key::LocalVariables,
    Key::PrevBuffer,
    Key::NextBuffer,
];

const OPENED_TEXT: &[u8] =
    b"number:int,full_name:str,short_name:str,hidden:int,title:str,local_variables:htb,\
prev_buffer:ptr,next_buffer:ptr";

const DUMP: &[Key] = &[
    Key::Number,
    Key::FullName,
    Key::ShortName,
    Key::Hidden,
    Key::Title,
    Key::LocalVariables,
];

const DUMP_TEXT: &[u8] =
    b"number:int,full_name:str,short_name:str,hidden:int,title:str,local_variables:htb";

const LINE_DATA: &[Key] = &[
    Key::Buffer,
    Key::Id,
    Key::Date,
    Key::DateUsec,
    Key::DatePrinted,
    Key::DateUsecPrinted,
    Key::Displayed,
    Key::NotifyLevel,
    Key::Highlight,
    Key::TagsArray,
    Key::Prefix,
    Key::Message,
];

const LINE_DATA_TEXT: &[u8] =
    b"buffer:ptr,id:int,date:tim,date_usec:int,date_printed:tim,date_usec_printed:int,displayed:chr,\
notify_level:chr,highlight:chr,tags_array:arr,prefix:str,message:str";

const NICKS: &[Key] = &[
    Key::Group,
    Key::Visible,
    Key::Level,
    Key::Name,
    Key::Color,
    Key::Prefix,
    Key::PrefixColor,
];

const NICKS_TEXT: &[u8] =
    b"group:chr,visible:chr,level:int,name:str,color:str,prefix:str,prefix_color:str";

const DIFF: &[Key] = &[
    Key::Diff,
    Key::Group,
    Key::Visible,
    Key::Level,
    Key::Name,
    Key::Color,
    Key::Prefix,
    Key::PrefixColor,
];

const DIFF_TEXT: &[u8] =
    b"_diff:chr,group:chr,visible:chr,level:int,name:str,color:str,prefix:str,prefix_color:str";

const COMPLETION: &[Key] = &[
    Key::Context,
    Key::BaseWord,
    Key::PosStart,
    Key::PosEnd,
    Key::List,
];

/// Keys that are told together, in this order.
#[derive(Clone, Copy, Debug, PartialEq, Eq)]
pub enum KeyList {
    /// Every key of a buffer, our own last.
    Buffer,
    /// Every key of a list of lines.
    Lines,
    /// Every key of a place in such a list.
    Line,
    /// Every key of what a line says, in its event and in the dump of lines too.
    LineData,
    /// What the dump of buffers has of each.
    Dump,
    /// What is told of a new buffer.
    Opened,
    /// What is told of a buffer that is moved, merged or hidden.
    Placed,
    /// What is told of a buffer with new names.
    Renamed,
    /// What is told of a buffer with a new title.
    Titled,
    /// What is told of a buffer whose variables are others.
    Variables,
    /// What is told of a buffer that is cleared or closed.
    Named,
    /// What is told of lines whose flag is another.
    Flags,
    /// What is told of a buffer whose oldest lines went.
    Trimmed,
    /// What is told of the groups and nicks of a list.
    Nicks,
    /// What is told of each change of such a list.
    Diff,
    /// What is told of a buffer that has lines which were not read.
    Hotlist,
    /// What is told of a word that was completed.
    Completion,
}

impl KeyList {
    /// The keys of the list.
    pub fn keys(self) -> &'static [Key]
        ensures { result.now ≡ keys_in self }
    {
        match self {
            KeyList::Buffer => BUFFER,
            KeyList::Lines => &[Key::FirstLine, Key::LastLine, Key::LinesCount],
            KeyList::Line => &[Key::Data],
            KeyList::LineData => LINE_DATA,
            KeyList::Dump => DUMP,
            KeyList::Opened => OPENED,
            KeyList::Placed => &[Key::Number, Key::FullName, Key::PrevBuffer, Key::NextBuffer],
            KeyList::Renamed => &[
                Key::Number,
                Key::FullName,
                Key::ShortName,
                Key::LocalVariables,
            ],
            KeyList::Titled => &[Key::Number, Key::FullName, Key::Title],
            KeyList::Variables => &[Key::Number, Key::FullName, Key::LocalVariables],
            KeyList::Named => &[Key::Number, Key::FullName],
            KeyList::Flags => &[Key::Buffer, Key::Displayed],
            KeyList::Trimmed => &[Key::Buffer, Key::Trimmed],
            KeyList::Nicks => NICKS,
            KeyList::Diff => DIFF,
            KeyList::Hotlist => &[Key::Priority, Key::Buffer, Key::Unread],
            KeyList::Completion => COMPLETION,
        }
    }

    /// The keys as a message names them: each name, a colon and the letters of its type, which
    /// commas join.
    pub fn text(self) -> &'static [u8]
        ensures { result.now ≡ list_text self }
    {
        match self {
            KeyList::Buffer => BUFFER_TEXT,
            KeyList::Lines => b"first_line:ptr,last_line:ptr,lines_count:int",
            KeyList::Line => b"data:ptr",
            KeyList::LineData => LINE_DATA_TEXT,
            KeyList::Dump => DUMP_TEXT,
            KeyList::Opened => OPENED_TEXT,
            KeyList::Placed => b"number:int,full_name:str,prev_buffer:ptr,next_buffer:ptr",
            KeyList::Renamed => b"number:int,full_name:str,short_name:str,local_variables:htb",
            KeyList::Titled => b"number:int,full_name:str,title:str",
            KeyList::Variables => b"number:int,full_name:str,local_variables:htb",
            KeyList::Named => b"number:int,full_name:str",
            KeyList::Flags => b"buffer:ptr,displayed:chr",
            KeyList::Trimmed => b"buffer:ptr,count:int",
            KeyList::Nicks => NICKS_TEXT,
            KeyList::Diff => DIFF_TEXT,
            KeyList::Hotlist => b"priority:int,buffer:ptr,count:arr",
            KeyList::Completion => {
                b"context:str,base_word:str,pos_start:int,pos_end:int,list:arr"
            }
        }
    }
}
