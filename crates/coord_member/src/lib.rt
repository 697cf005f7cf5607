//! The members' rule: what a service does when it looks at the coordinator, with which other
//! members its start may talk, and why that mixes no runs.
//!
//! [`judge`] is the rule. From what a member keeps on disk, its node's row and its party, it returns the due action
//! (talk, wait, begin the shown epoch, ask for a reset) and what must be on disk before that action. `specs/Rule.antt`
//! defines both. [`due_of`] and [`change_of`] are the same rule without allocation, for callers that keep the history
//! elsewhere. [`party_text`] is the text whose digest is a message's tag, and [`on_refused`] is the rule for a rejected
//! tag.
//!
//! The main theorems are the contracts of [`laws`], over the events of `specs/Members.antt`: looks, loads, crashes,
//! lost work and files, messages that arrive late, repeatedly or never. No start ever hears, directly or through
//! others, of two starts of one member (`specs/NoMix.antt`). If members keep their files, this holds whatever views are
//! shown (`laws::no_mix`). If the views are a store's history, it holds even if members lose their files at any moment
//! (`laws::no_mix_where_files_are_lost`; `specs/Honest.antt`). A member may write parties into its history that its
//! start then does not talk with (`specs/Cautious.antt`). `specs/OnDisk.antt` states what must be on disk before a
//! message is sent.
//!
//! A paused member cannot know that the other members have begun another run. [`Gate`] is for a
//! resource that several members use: each request carries a fence (`specs/Fence.antt`), and the
//! gate keeps out every start that a start of another run has replaced.
#![tactic(auto)]

mod fence;
mod kept;
pub mod laws;
mod party;
mod rule;
mod text;
mod view;

pub use fence::Gate;
pub use kept::{Judged, Kept, judge};
pub use party::{is_alone, is_within, same_party};
pub use rule::{Change, Due, change_of, due_of, on_refused};
pub use text::{party_text, print_entry};
pub use view::{Entry, Row};
