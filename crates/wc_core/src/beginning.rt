//! What a core begins with that takes memory.

ghost use Rattle.std.specs.Prelude.{◌≡◌, ◌≤◌, [], IfOk};
ghost use Rattle.wc_board.specs.BoardView.{first_board};

use crate::command_names::CommandNames;
use std::alloc::Global;
use wc_board::Board;
use wc_hotlist::Hotlist;
use wc_rules::Rules;
use wc_text::NoMemory;

/// The core buffer alone, no rules, no news, and the names of commands.
pub(crate) struct Beginning {
    pub(crate) board: Board,
    pub(crate) rules: Rules,
    pub(crate) hotlist: Hotlist,
    pub(crate) command_names: CommandNames,
}

impl Beginning {
    /// The core buffer holds as many lines as the limit.
    pub(crate) fn new(alloc: Global, limit: u32) -> Result<Beginning, NoMemory>
        requires some { 1 ≤ limit }
        requires most { limit ≤ 4096 }
        ensures board { IfOk result (λ beginning. beginning.board ≡ first_board limit) }
        ensures unjudged { IfOk result (λ beginning. beginning.rules.verdicts.rows ≡ []) }
        ensures filters { IfOk result (λ beginning. beginning.rules.filters ≡ []) }
        ensures hotlist { IfOk result (λ beginning. beginning.hotlist ≡ []) }
    {
        let hotlist = Hotlist::new(alloc)?;
        let command_names = CommandNames::new(alloc)?;
        let rules = Rules::new(alloc)?;
        let board = Board::new(alloc, limit)?;
        Ok(Beginning {
            board,
            rules,
            hotlist,
            command_names,
        })
    }
}
