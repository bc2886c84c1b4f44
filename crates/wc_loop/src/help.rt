ghost use Rattle.std.specs.Prelude.{◌≡◌};
ghost use Rattle.wc_loop.specs.Endings.{help_text};

/// The words of the program, and what each status means.
#[tactic(auto, unfolding(crate::specs::Endings::help_text))]
pub fn help() -> &'static [u8]
    ensures { result.now ≡ help_text }
{
    b"wc-headless: a chat core without a screen, read through relays\n\n  -d FOLDER   keeps weechat.conf in this folder, in place of the current one\n  -r COMMAND  runs a command at the start; may be repeated\n  -a          connects no server at the start\n  --turns N   ends after N waits\n  --demo N    counts what there is after N lines of a server that is made up\n  -v          prints the version\n  -h, --help  prints this\n\nStatus:\n  0  /quit was run, or the version, this or a demo was printed\n  1  a word is unknown, or lacks its value\n  2  waiting failed\n  3  the configuration cannot be read or written\n  4  a line of the configuration is unreadable\n  5  there was no memory before the first wait, or for a demo\n  6  listening failed\n  7  printing failed\n  8  N waits returned\n"
}
