// A whole log of a trace: what is before its first line, and the header before its answers.
#![tactic(auto)]

ghost use Rattle.std.specs.Prelude.{◌≡◌, ◌+◌, ◌≤◌, length};
ghost use Rattle.text.specs.Text.{Wrote};
ghost use Rattle.trace_logs.specs.Logs.{header};
ghost use Rattle.trace_logs.specs.Pieces.{opened};

use text_logs::Log;
use trace_session::Session;

// Before a log: no device yet, and no line.
pub fn start() -> Log<Session>
    ensures { result ≡ opened }
{
    Log::new(Session::new())
}

// Puts the header into out from at on, and says where it ends.
pub fn put_header(out: &mut [u8], at: usize) -> usize
    requires { at + 20 ≤ length out.old }
    ensures { Wrote out.old at header result out.new × (result ≤ length out.new) }
{
    text::put(out, at, b"answer\tint\tlow\thigh\n")
}
