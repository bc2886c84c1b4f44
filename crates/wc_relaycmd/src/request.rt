use wc_text::{Items, Pair, Text};

/// What a line asks, and the id under which its reply is sent.
#[derive(Drop)]
pub struct Request {
    /// Empty where the line has no id.
    pub id: Text,
    pub command: Command,
}

/// What a client may ask, as in the WeeChat relay protocol.
#[derive(Drop)]
pub enum Command {
    /// What the client can do, as a list of names and values.
    Handshake(Items<Pair>),
    /// The login, as a list of names and values.
    Init(Items<Pair>),
    /// The objects at a path. Where the keys are empty all are asked for.
    Hdata {
        path: Text,
        keys: Text,
    },
    /// The information of that name.
    Info(Text),
    /// The list of that name. The argument, which comes after a pointer, says of what it is to be,
    /// and is empty where it is not written.
    Infolist {
        name: Text,
        argument: Text,
    },
    /// The nicks of that buffer, or of all buffers.
    Nicklist(Option<Text>),
    /// A text that is typed into a buffer.
    Input {
        buffer: Text,
        text: Text,
    },
    /// The completions of a text at a place in it.
    Completion {
        buffer: Text,
        position: i64,
        text: Text,
    },
    /// From now on events of these buffers are sent. None stands for the options that are usual.
    Sync {
        buffers: Items<Text>,
        options: Option<Items<Text>>,
    },
    /// From now on events of these buffers are no longer sent.
    Desync {
        buffers: Items<Text>,
        options: Option<Items<Text>>,
    },
    /// One object of each kind.
    Test,
    /// The same text in return.
    Ping(Text),
    /// The end of the connection.
    Quit,
}
