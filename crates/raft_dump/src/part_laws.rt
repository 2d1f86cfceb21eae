//! What a part gives is what its file gives.
ghost use Rattle.std.specs.Prelude.{◌≡◌, ◌++◌, ◌+◌, ◌-◌, ℕ, List, drop, length, take};
ghost use Rattle.raft_base.specs.declared.pipe_log.FileId.{FileId};
ghost use Rattle.raft_records.specs.Front.{HasRecordOf};
ghost use Rattle.raft_files.specs.RecordReader.{next_refusal, next_replay_refusal};
ghost use Rattle.raft_files.specs.declared.format.LogFileFormat.{LogFileFormat};
ghost use Rattle.raft_dump.specs.Items.{given_after};
ghost use Rattle.raft_dump.specs.Given.{cursor, end_of_items, end_of_sound, items_left, moved, sound_items};

/// A part of a file's bytes from a place on, after the file's header. From that place on the file
/// has the items that the part has after the header, each at its place in the file, and then those
/// from the end of these on (`items`). There it stops for the same reason as the part, if the part
/// has the whole record there (`stop`).
pub fn a_part_gives_what_its_file_gives()
    ensures items { (id : FileId) (format : LogFileFormat) (header bytes part : List ℕ)
        (at len : ℕ) → format.alignment ≡ 0 → part ≡ take len (drop at bytes)
        → let inner = cursor id format (header ++ part) (length header) in
        let end = at + (end_of_items inner - length header) in
        given_after (cursor id format bytes at) ≡ moved (length header) at (items_left inner)
        ++ given_after (cursor id format bytes end) }
    ensures stop { (id : FileId) (format : LogFileFormat) (header bytes part : List ℕ)
        (at len : ℕ) → format.alignment ≡ 0 → part ≡ take len (drop at bytes)
        → let inner = cursor id format (header ++ part) (length header) in
        let end = at + (end_of_items inner - length header) in
        HasRecordOf (drop end bytes) (drop (end_of_items inner) (header ++ part))
        → next_replay_refusal (cursor id format bytes end)
        ≡ next_replay_refusal (cursor id format (header ++ part) (end_of_items inner)) }
{}

/// The same of records whose entries have their checksum too: a reading of sound records of the file
/// gives the items that the part gives, and then those from the end of these on (`items`). There it
/// stops for the same reason as the part, if the part has the whole record there (`stop`).
pub fn a_part_reads_what_its_file_reads()
    ensures items { (id : FileId) (format : LogFileFormat) (header bytes part : List ℕ)
        (at len : ℕ) → format.alignment ≡ 0 → part ≡ take len (drop at bytes)
        → let inner = cursor id format (header ++ part) (length header) in
        let end = at + (end_of_sound inner - length header) in
        sound_items (cursor id format bytes at) ≡ moved (length header) at (sound_items inner)
        ++ sound_items (cursor id format bytes end) }
    ensures stop { (id : FileId) (format : LogFileFormat) (header bytes part : List ℕ)
        (at len : ℕ) → format.alignment ≡ 0 → part ≡ take len (drop at bytes)
        → let inner = cursor id format (header ++ part) (length header) in
        let end = at + (end_of_sound inner - length header) in
        HasRecordOf (drop end bytes) (drop (end_of_sound inner) (header ++ part))
        → next_refusal (cursor id format bytes end)
        ≡ next_refusal (cursor id format (header ++ part) (end_of_sound inner)) }
{}
