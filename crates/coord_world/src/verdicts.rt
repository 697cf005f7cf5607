//! The verdict on a step that is not refused.

use coord_types::{Kind, Reply};

/// The verdict on a step that is not refused.
#[derive(Clone, Copy, Debug, PartialEq, Eq)]
pub enum Verdict {
    /// The step can be carried out, and its reply will be of this kind.
    Fresh(Kind),
    /// The step is the client's last order, sent again; this was its reply.
    Repeat(Reply),
}
