// The flow control window, for C. Time is in microseconds.
ghost use Rattle.std.specs.Prelude.{◌≡◌};
ghost use Rattle.flowcontrol.specs.State.{Good};
ghost use Rattle.flowcontrol.specs.Rules.{created, consumed_more, due, next, committed, autotuned, at_least};
ghost use Rattle.stream_c.specs.State.{flow_of, vk_flow};
ghost use Rattle.stream_c.specs.Rules.{flow_out};

use super::{VkAnswer, VkFlowControl};
use flowcontrol::FlowControl;
use refusal::Outcome;

// The window after a call, and what the call answered.
#[repr(C)]
#[derive(Clone, Copy)]
pub struct VkFlowControlOut {
    pub flow: VkFlowControl,
    pub answer: VkAnswer,
}

// BadSetup; the record that comes back then grants nothing.
#[unsafe(no_mangle)]
pub extern "C" fn vk_flow_control_new(
    max_data: u64,
    window: u64,
    max_window: u64,
) -> VkFlowControlOut
    ensures { result ≡ flow_out (created max_data window max_window) }
{
    FlowControl::new(max_data, window, max_window).into()
}

#[unsafe(no_mangle)]
pub extern "C" fn vk_flow_control_window(flow: VkFlowControl) -> u64
    ensures { result ≡ (flow_of flow).window }
{
    FlowControl::from(flow).window()
}

#[unsafe(no_mangle)]
pub extern "C" fn vk_flow_control_max_data(flow: VkFlowControl) -> u64
    ensures { result ≡ (flow_of flow).max_data }
{
    FlowControl::from(flow).max_data()
}

// Counts `consumed` bytes more. Offset.
#[unsafe(no_mangle)]
pub extern "C" fn vk_flow_control_add_consumed(
    flow: VkFlowControl,
    consumed: u64,
) -> VkFlowControlOut
    requires { Good (flow_of flow) }
    ensures { result ≡ flow_out (consumed_more (flow_of flow) consumed) }
{
    FlowControl::from(flow).add_consumed(consumed).into()
}

// Is less than half a window left?
#[unsafe(no_mangle)]
pub extern "C" fn vk_flow_control_should_update_max_data(flow: VkFlowControl) -> bool
    ensures { result ≡ due (flow_of flow) }
{
    FlowControl::from(flow).should_update_max_data()
}

// The limit that a commit would set.
#[unsafe(no_mangle)]
pub extern "C" fn vk_flow_control_max_data_next(flow: VkFlowControl) -> u64
    requires { Good (flow_of flow) }
    ensures { result ≡ next (flow_of flow) }
{
    FlowControl::from(flow).max_data_next()
}

// Commits the next limit.
#[unsafe(no_mangle)]
pub extern "C" fn vk_flow_control_update_max_data(flow: VkFlowControl, now: u64) -> VkFlowControl
    requires { Good (flow_of flow) }
    ensures { result ≡ vk_flow (committed (flow_of flow) now) }
{
    FlowControl::from(flow).update_max_data(now).into()
}

// Doubles the window, up to its maximum, where the last commit is less than two round trips ago.
#[unsafe(no_mangle)]
pub extern "C" fn vk_flow_control_autotune_window(
    flow: VkFlowControl,
    now: u64,
    rtt: u64,
) -> VkFlowControl
    requires { Good (flow_of flow) }
    ensures { result ≡ vk_flow (autotuned (flow_of flow) now rtt) }
{
    FlowControl::from(flow).autotune_window(now, rtt).into()
}

// The window at least `min_window`, up to its maximum. Offset.
#[unsafe(no_mangle)]
pub extern "C" fn vk_flow_control_ensure_window_lower_bound(
    flow: VkFlowControl,
    min_window: u64,
) -> VkFlowControlOut
    requires { Good (flow_of flow) }
    ensures { result ≡ flow_out (at_least (flow_of flow) min_window) }
{
    FlowControl::from(flow)
        .ensure_window_lower_bound(min_window)
        .into()
}

impl From<Outcome<(), FlowControl>> for VkFlowControlOut {
    ghost from_gives = { λ o r. r ≡ flow_out o };

    #[tactic(auto, unfolding(crate::specs::Rules::flow_out))]
    fn from(out: Outcome<(), FlowControl>) -> VkFlowControlOut {
        VkFlowControlOut {
            flow: out.state.into(),
            answer: out.answer.into(),
        }
    }
}
