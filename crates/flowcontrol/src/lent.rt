// The window lent: a caller's loop keeps one record and has it changed in place. Each function is thin over the one that takes the record
// by value, and promises the same: the record at exit, and the answer, are that function's of the record at entry.
// They stand beside the calls by value because the project asks for both forms: the record passed on, and lent and changed in place.
ghost use Rattle.std.specs.Prelude.{◌≡◌};
ghost use Rattle.flowcontrol.specs.State.{Good};
ghost use Rattle.flowcontrol.specs.Rules.{consumed_more, committed, autotuned};

use crate::FlowControl;
use refusal::Refusal;

// Counts `n` bytes more. Offset where the total would pass M; then the record stays as it is.
pub fn consume(flow: &mut FlowControl, n: u64) -> Result<(), Refusal>
    requires { Good flow.old }
    ensures { (flow.new ≡ (consumed_more flow.old n).state) × (result ≡ (consumed_more flow.old n).answer) }
{
    let out = flow.add_consumed(n);
    *flow = out.state;
    out.answer
}

// Commits the next limit. Answers the limit now in force: what a MAX_STREAM_DATA or MAX_DATA frame carries.
pub fn commit(flow: &mut FlowControl, now: u64) -> u64
    requires { Good flow.old }
    ensures { (flow.new ≡ committed flow.old now) × (result ≡ (committed flow.old now).max_data) }
{
    *flow = flow.update_max_data(now);
    flow.max_data
}

// Doubles the window, up to its maximum, where the last update is less than two round trips ago. Answers the window after it.
pub fn autotune(flow: &mut FlowControl, now: u64, rtt: u64) -> u64
    requires { Good flow.old }
    ensures { (flow.new ≡ autotuned flow.old now rtt) × (result ≡ (autotuned flow.old now rtt).window) }
{
    *flow = flow.autotune_window(now, rtt);
    flow.window
}
