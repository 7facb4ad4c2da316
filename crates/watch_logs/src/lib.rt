// A whole watched log: what is before its first line, and the header before its answers.
#![tactic(auto)]

ghost use Rattle.std.specs.Prelude.{◌≡◌, ◌+◌, ◌≤◌, length};
ghost use Rattle.text.specs.Text.{Wrote};
ghost use Rattle.watch_logs.specs.Logs.{header};
ghost use Rattle.watch_logs.specs.Pieces.{opened};

use text_logs::Log;
use watch_session::Watch;

// Before a log: no device yet, and no line.
pub fn start() -> Log<Watch>
    ensures { result ≡ opened }
{
    Log::new(Watch::new())
}

// Puts the header into out from at on, and says where it ends.
pub fn put_header(out: &mut [u8], at: usize) -> usize
    requires { at + 26 ≤ length out.old }
    ensures { Wrote out.old at header result out.new × (result ≤ length out.new) }
{
    text::put(out, at, b"answer\tint\tlow\thigh\tmarks\n")
}
