//! The settings of the program's engine: its own, and the keys that the first lines set.
ghost use Rattle.std.specs.Prelude.{◌≡◌, ◌++◌, ◌∷◌, [], not, false, true, None, Some, IfErr, IfOk, IfSome, OnOk, option_map};
ghost use Rattle.raft_lines.specs.Settings.{AreOwn, IsSetRefusal, SetsOwn, text_set, were_read};

use raft_log_engine::Config;
use raft_records::{Fault, Fresh, ReadableSize};
use raft_settings::with_text;
use std::alloc::{AllocError, Global};
use std::str;

const FOLDER: &str = "raft";

/// The lines that set keys, and the settings that are made of them at the first request.
#[derive(Drop)]
pub(crate) struct Settings {
    // The texts of the lines, each with a newline.
    lines: Vec<u8>,
    config: Option<Config>,
}

impl Settings {
    /// Without lines.
    pub(crate) fn new(alloc: Global) -> Settings
        ensures lines { result.lines.items ≡ [] }
        ensures read { were_read result ≡ false }
    {
        Settings {
            lines: Vec::new(alloc),
            config: None,
        }
    }

    /// Adds the text of a line. Returns whether it did: after the first request it doesn't.
    pub(crate) fn add(&mut self, text: &[u8]) -> Result<bool, AllocError>
        ensures value { IfOk result (λ added. added ≡ not (were_read self.old)) }
        ensures lines { were_read self.old ≡ false → OnOk result
            (self.new.lines.items ≡ self.old.lines.items ++ text.now ++ 10 ∷ []) }
        ensures config { self.new.config ≡ self.old.config }
    {
        if self.config.is_some() {
            return Ok(false);
        }
        self.lines.extend_from_slice(text)?;
        self.lines.push(b'\n')?;
        Ok(true)
    }

    /// Makes the settings of the lines, at the first call. It fails with `InvalidArgument` if the
    /// lines are no valid settings, and otherwise with `Memory`.
    pub(crate) fn read(&mut self, alloc: Global) -> Result<(), Fault>
        ensures ok { OnOk result (were_read self.new ≡ true) }
        ensures value { self.old.config ≡ None → OnOk result
            (IfSome self.new.config (SetsOwn self.old.lines.items)) }
        ensures once { were_read self.old ≡ true → self.new ≡ self.old }
        ensures cause { IfErr result (λ e. (self.old.config ≡ None)
            × IsSetRefusal self.old.lines.items e) }
    {
        if self.config.is_none() {
            self.config = Some(read_lines(alloc, &self.lines)?);
        }
        Ok(())
    }

    /// The settings that were made.
    pub(crate) fn config(&self) -> &Config
        requires read { were_read self.now ≡ true }
        ensures value { self.now.config ≡ Some result.now }
    {
        match &self.config {
            Some(config) => config,
            None => unreachable!(),
        }
    }
}

/// The text that a line sets; `None` for any other line.
pub(crate) fn text_set(line: &[u8]) -> Option<&[u8]>
    ensures value { option_map (λ text. text.now) result ≡ text_set line.now }
{
    let text = line.strip_prefix(b"set ".as_slice())?;
    if text.is_empty() { None } else { Some(text) }
}

// The program's own settings, with the keys of the lines.
fn read_lines(alloc: Global, lines: &[u8]) -> Result<Config, Fault>
    ensures value { IfOk result (SetsOwn lines.now) }
    ensures cause { IfErr result (IsSetRefusal lines.now) }
{
    let own = own(alloc)?;
    match str::from_utf8(lines) {
        Ok(text) => with_text(alloc, &own, text),
        Err(_) => Err(Fault::InvalidArgument("the settings are no UTF-8")),
    }
}

fn own(alloc: Global) -> Result<Config, AllocError>
    ensures value { IfOk result AreOwn }
{
    let mut config = Config::fresh(alloc);
    config.dir.push_str(FOLDER)?;
    config.target_file_size = ReadableSize::kb(1);
    config.purge_threshold = ReadableSize::kb(10);
    Ok(config)
}
