//! When a purge rewrites, and what it rewrites, as rules over counts and numbers of files.
#![tactic(auto)]

mod choosing;
mod group_choice;
mod need;
mod plan;
mod rounds;
mod watermarks;
mod within_budget;

pub use choosing::{Chosen, Decision, Needs, Watermarks, decide_all, group_use, groups_by};
pub use group_choice::{Choice, GroupUse, choose};
pub use need::{QueueUse, RewrittenEntries, append_needs_rewrite, rewrite_needs_rewrite};
pub use plan::{PurgePlan, plan_purge};
pub use rounds::Rounds;
pub use watermarks::{compact_watermark, rewrite_watermark};
pub use within_budget::{NextGroups, next_groups};
