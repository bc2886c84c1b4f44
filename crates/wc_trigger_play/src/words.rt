use wc_hooks::HookKind;
use wc_triggers::{PostAction, ReturnCode, TriggerRefused};

/// Why a text is no trigger.
pub fn refusal_word(refused: TriggerRefused) -> &'static str {
    match refused {
        TriggerRefused::BadWords => "wrong arguments",
        TriggerRefused::BadHook => "bad hook",
        TriggerRefused::BadArguments => "bad arguments",
        TriggerRefused::BadPattern => "bad pattern",
        TriggerRefused::BadReturn => "bad return code",
        TriggerRefused::BadPost => "bad post action",
        TriggerRefused::NoMemory => "out of memory",
    }
}

pub fn kind_word(kind: HookKind) -> &'static str {
    match kind {
        HookKind::Relay => "relay",
        HookKind::Signal => "signal",
        HookKind::Print => "print",
        HookKind::Modifier => "modifier",
        HookKind::Command => "command",
        HookKind::CommandRun => "command_run",
        HookKind::Timer => "timer",
    }
}

pub fn code_word(code: ReturnCode) -> &'static str {
    match code {
        ReturnCode::Ok => "ok",
        ReturnCode::OkEat => "ok_eat",
        ReturnCode::Error => "error",
    }
}

pub fn post_word(post: PostAction) -> &'static str {
    match post {
        PostAction::Keep => "keep",
        PostAction::Disable => "disable",
        PostAction::Delete => "delete",
    }
}
