// The windows of a run: the connection's, which is the loop's own record, and the stream's, which the receive buffer keeps (RFC 9000, 4.1).
// Each is lent, and changed in place.
//
// The stream is the connection's only one. Both windows begin with the same numbers, count the same bytes and are renewed at the same
// moments, so their limits are the same. The sender is granted the lesser of the two, which is never above the stream's own: so its limit
// is raised only to what the receiver's window has committed, as demand 3 presumes.
ghost use Rattle.std.specs.Prelude.{◌≡◌};
ghost use Rattle.flowcontrol.specs.State.{Good};
ghost use Rattle.flowcontrol.specs.Rules.{committed, autotuned};
ghost use Rattle.recv_buf.specs.State.{Good as GoodRecv, view_of};
ghost use Rattle.recv_buf.specs.Rules.{commits, autotunes};

use flowcontrol::{FlowControl, lent};
use recv_buf::RecvBuf;

// Grows the window where commits follow one another fast, and commits the next limit, which is the answer: the record is lent on to both.
// `now` and `rtt` count rounds.
pub fn renew(flow: &mut FlowControl, now: u64, rtt: u64) -> u64
    requires { Good flow.old }
    ensures renewed { flow.new ≡ committed (autotuned flow.old now rtt) now }
    ensures limit { result ≡ (committed (autotuned flow.old now rtt) now).max_data }
    ensures good { Good flow.new }
{
    lent::autotune(flow, now, rtt);
    lent::commit(flow, now)
}

// The same of the stream's window. The buffer's record is taken out, renewed in place and handed back, which comes to the same as the
// buffer's own two calls: so demand 3 covers it.
#[tactic(auto, using(recv_buf::proofs::Good::view_buf, recv_buf::proofs::Kept::flow_back_good), unfolding(recv_buf::specs::Rules::flow_back, recv_buf::specs::Rules::commits, recv_buf::specs::Rules::autotunes))]
pub fn commit(buf: &mut RecvBuf, now: u64, rtt: u64) -> u64
    requires { GoodRecv buf.old }
    ensures renewed { buf.new ≡ commits (view_of (autotunes (view_of buf.old) now rtt)) now }
    ensures limit { result ≡ buf.new.flow_control.max_data }
    ensures good { GoodRecv buf.new }
{
    let mut flow = buf.flow_control();
    let limit = renew(&mut flow, now, rtt);
    *buf = buf.set_flow_control(flow);
    limit
}
