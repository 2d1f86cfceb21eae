//! Listeners to what happens to log files, and the engine's own one.
#![tactic(auto)]

mod event_sink;
mod file_keeper;
mod hook;
mod listener;
mod listeners;
mod no_listeners;
mod purge_events;

pub use event_sink::{EventSink, tell_files};
pub use file_keeper::FileKeeper;
pub use hook::PurgeHook;
pub use listener::{Event, EventListener};
pub use listeners::Listeners;
pub use no_listeners::NoListeners;
pub use purge_events::PurgeEvents;
