//! What the bytes that were fed come to, one answer at a time.
ghost use Rattle.std.specs.Prelude.{◌≡◌, Err};
ghost use Rattle.wc_ws.specs.Link.{OnHead, OnFrames};

use crate::frames::read_frame;
use crate::head::take_head;
use crate::link::WsLink;
use crate::names::{WsGot, WsRefused, WsStage};
use std::alloc::Global;

impl WsLink {
    /// Reads the head, or the frame, at the front of what was fed. A link that answered a refusal
    /// answers the same from then on.
    pub fn next(&mut self, alloc: Global) -> Result<WsGot, WsRefused>
        ensures over { (why : WsRefused) → self.old.stage ≡ WsStage.Over why →
            (result ≡ Err why) × (self.new ≡ self.old) }
        ensures head { self.old.stage ≡ WsStage.Head → OnHead self.old result self.new }
        ensures frames { self.old.stage ≡ WsStage.Frames → OnFrames self.old result self.new }
    {
        match self.stage {
            WsStage::Head => self.next_of_head(alloc),
            WsStage::Frames => self.next_of_frames(alloc),
            WsStage::Over(why) => Err(why),
        }
    }

    fn next_of_head(&mut self, alloc: Global) -> Result<WsGot, WsRefused>
        requires { self.old.stage ≡ WsStage.Head }
        ensures { OnHead self.old result self.new }
    {
        match take_head(&mut self.input, &mut self.output) {
            Ok(true) => {
                self.stage = WsStage::Frames;
                self.next_of_frames(alloc)
            }
            Ok(false) => Ok(WsGot::NotYet),
            Err(why) => {
                self.stage = WsStage::Over(why);
                Err(why)
            }
        }
    }

    fn next_of_frames(&mut self, alloc: Global) -> Result<WsGot, WsRefused>
        requires { self.old.stage ≡ WsStage.Frames }
        ensures { OnFrames self.old result self.new }
    {
        if !self.context.can_read() {
            return Ok(WsGot::Ended);
        }
        // what a client that does not read asks for is not answered without end
        if !self.has_room(0) {
            self.stage = WsStage::Over(WsRefused::NoMemory);
            return Err(WsRefused::NoMemory);
        }
        match read_frame(alloc, &mut self.context, &mut self.input, &mut self.output) {
            Ok(got) => Ok(got),
            Err(cause) => {
                self.stage = WsStage::Over(cause);
                Err(cause)
            }
        }
    }
}
