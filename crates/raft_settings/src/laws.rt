//! The relation between settings and their texts.
ghost use Rattle.std.specs.Prelude.{ℕ, List};
ghost use Rattle.raft_config.specs.Config.{IsCopy};
ghost use Rattle.raft_config.specs.declared.config.Config.{Config};
ghost use Rattle.raft_settings.specs.Reading.{Reads};

/// Two readings of a text over the same settings give the same settings.
pub fn a_text_decides_its_settings()
    ensures { (text : List ℕ) (old new other : Config) → Reads text old new → Reads text old other
        → IsCopy new other }
{}
