//! The place of a line in a text: in a block text, in a flow or in neither.

use crate::flow_state::FlowState;

// The place of a line.
#[derive(Clone, Copy)]
pub(crate) struct LineState {
    // How many lines, from this one on, belong to a block text.
    pub(crate) taken: usize,
    // The flow that is open before it.
    pub(crate) flow: FlowState,
}
