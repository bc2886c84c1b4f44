ghost use Rattle.std.specs.Prelude.{◌≡◌, IfOk, OnOk, OnErr};
ghost use Rattle.std.specs.Str.{IsUtf8};
ghost use Rattle.wc_model.specs.Notices.{Outcome};
ghost use Rattle.wc_world.specs.Texts.{IsChangeText};
ghost use Rattle.wc_board.specs.BoardView.{NoStrayTouches};
ghost use Rattle.wc_board.specs.Told.{is_close, AreTouched, AreSameTouches};

use crate::pushes::forget_closed;
use std::alloc::Global;
use wc_model::{Change, ChangeRefused, Notice, What};
use wc_nickdiff::Pending;
use wc_world::World;

fn is_close(what: &What) -> bool
    ensures { result ≡ is_close what.now }
{
    matches!(what, What::Close)
}

/// Makes a change, and keeps the rows that it touches. Of a buffer that is closed nothing is kept.
pub fn change_world(
    alloc: Global,
    world: &mut World,
    pending: &mut Pending,
    change: Change,
) -> Result<Notice, ChangeRefused>
    requires { IsChangeText change.what }
    ensures outcome { Outcome world.old change world.new result }
    ensures touched { OnOk result (AreTouched world.old change pending.old pending.new) }
    ensures untouched { OnErr result (AreSameTouches pending.old pending.new) }
    ensures stray { NoStrayTouches world.old pending.old →
        NoStrayTouches world.new pending.new }
    ensures text { IfOk result (λ notice. IsUtf8 notice.full_name) }
{
    let _texts = world.buffers().groups();
    let buffer = change.buffer;
    let closes = is_close(&change.what);
    let notice = world.change(alloc, change, pending)?;
    let _texts_after = world.buffers().groups();
    forget_closed(pending, closes, buffer);
    Ok(notice)
}
