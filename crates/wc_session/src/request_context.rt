use wc_hotlist::Hotlist;
use wc_options::Options;
use wc_text::Text;

/// What requests are answered from, beside the world.
#[derive(Clone, Copy)]
pub struct RequestContext<'a> {
    /// The options, of which the login heeds some.
    pub options: &'a Options,
    /// The lines that were printed since it was cleared.
    pub hotlist: &'a Hotlist,
    /// The names of the commands that can be typed, without their slash.
    pub commands: &'a [Text],
}
