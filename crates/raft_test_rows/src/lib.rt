//! Operations, crashes and results as rows of tables, and the states that may be found after them.
//! For tests only.
#![tactic(auto)]

mod held;
mod plans;
mod runs;
mod states;

pub use held::{Failing, Faulty, Held};
pub use plans::{
    Answer, Change, Left, Plan, are_answers, choice_of, choices_of, fault_of, op_of, ops_of,
};
pub use raft_script::{
    Config, Engine, Image, Op, Outcome, RecoveryMode, Refused, TextEntry, Trial, number_of, run,
    step, trial, trial_twice,
};
pub use runs::{CALLS, Ran, is_refusal, run_held};
pub use states::{
    EMPTY, MAX_FILES, Sequence, State, after, are_new, count_below, first_refused, is_allowed,
    is_done, plans_in, settings, state_of, value_of,
};
