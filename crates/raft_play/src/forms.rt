//! The forms of lines as rows of a table: the first word, the kinds of the other words, and the
//! request.

use crate::asked::{
    Asked, BatchLine, CallLine, ChangeLine, CopyLine, CountLine, CrashLine, EntriesLine, EntryLine,
    FilesLine, ItemsLine, KeyLine, LogLine, LookLine, OpLine, ProgramLine, SettingsLine, UpsetLine,
    WholeLine, WriteLine,
};
use crate::words::is_byte;
use raft_test_rows::{RecoveryMode, number_of};

/// The kind of a word.
#[derive(Clone, Copy)]
pub(crate) enum Kind {
    /// Exactly this word.
    Is(&'static str),
    Text,
    Number,
    /// A number below 256.
    Byte,
    /// A number, or `-` for no bound.
    Bound,
    /// Bytes, spelled as in words.rt.
    Bytes,
    /// Bytes, or `-` for none.
    Key,
    /// Numbers up to the end of the line, and `sync` if it is there.
    Numbers,
}

use Kind::{Bound, Byte, Bytes, Is, Key, Number, Numbers, Text};

/// The first word of a line, the kinds of its other words, and its request.
#[derive(Clone, Copy)]
pub(crate) struct Form(pub &'static str, pub &'static [Kind], pub Asked);

static FORMS: [Form; 96] = [
    Form("settings", &[], Asked::Settings(SettingsLine::Usual)),
    Form("set", &[Text, Text], Asked::Settings(SettingsLine::Set)),
    Form("name", &[Text, Bytes], Asked::Settings(SettingsLine::Name)),
    Form(
        "open",
        &[],
        Asked::Log(LogLine::Open(RecoveryMode::TolerateTailCorruption)),
    ),
    Form(
        "open",
        &[Is("absolute")],
        Asked::Log(LogLine::Open(RecoveryMode::AbsoluteConsistency)),
    ),
    Form(
        "open",
        &[Is("tail")],
        Asked::Log(LogLine::Open(RecoveryMode::TolerateTailCorruption)),
    ),
    Form(
        "open",
        &[Is("any")],
        Asked::Log(LogLine::Open(RecoveryMode::TolerateAnyCorruption)),
    ),
    Form("why", &[], Asked::Log(LogLine::Why)),
    Form("close", &[], Asked::Log(LogLine::Close)),
    Form("reopen", &[], Asked::Log(LogLine::Reopen)),
    Form("give-up", &[], Asked::Log(LogLine::GiveUp)),
    Form("fail", &[Text, Number, Text], Asked::Log(LogLine::Fail)),
    Form("stop", &[Number], Asked::Log(LogLine::Stop)),
    Form(
        "put",
        &[Number, Bytes, Bytes],
        Asked::Batch(BatchLine::Key(KeyLine::Put)),
    ),
    Form(
        "del",
        &[Number, Bytes],
        Asked::Batch(BatchLine::Key(KeyLine::Delete)),
    ),
    Form(
        "message",
        &[Number, Bytes, Number, Bytes],
        Asked::Batch(BatchLine::Key(KeyLine::Message)),
    ),
    Form(
        "ent",
        &[Number, Number, Number, Bytes],
        Asked::Batch(BatchLine::Entries(EntriesLine::Texts)),
    ),
    Form(
        "raw",
        &[Number, Number, Bytes],
        Asked::Batch(BatchLine::Entries(EntriesLine::Raw)),
    ),
    Form(
        "plain",
        &[Number, Bytes],
        Asked::Batch(BatchLine::Entries(EntriesLine::Plain)),
    ),
    Form(
        "plain-message",
        &[Number, Bytes, Bytes],
        Asked::Batch(BatchLine::Key(KeyLine::PlainMessage)),
    ),
    Form("clean", &[Number], Asked::Batch(BatchLine::Clean)),
    Form(
        "compact",
        &[Number, Number],
        Asked::Batch(BatchLine::Compact),
    ),
    Form("next", &[], Asked::Batch(BatchLine::Next(false))),
    Form("next", &[Is("sync")], Asked::Batch(BatchLine::Next(true))),
    Form("flags", &[Number], Asked::Batch(BatchLine::Flags)),
    Form("drop", &[], Asked::Batch(BatchLine::Drop)),
    Form(
        "folder",
        &[Text],
        Asked::Files(FilesLine::Change(ChangeLine::Folder)),
    ),
    Form(
        "store",
        &[Text, Bytes],
        Asked::Files(FilesLine::Change(ChangeLine::Store)),
    ),
    Form(
        "note",
        &[Text],
        Asked::Files(FilesLine::Upset(UpsetLine::Note)),
    ),
    Form(
        "free",
        &[Text, Number],
        Asked::Files(FilesLine::Upset(UpsetLine::Free)),
    ),
    Form(
        "crash",
        &[Is("all")],
        Asked::Files(FilesLine::Upset(UpsetLine::CrashAll)),
    ),
    Form(
        "crash",
        &[Is("synced")],
        Asked::Files(FilesLine::Upset(UpsetLine::CrashSynced)),
    ),
    Form(
        "crash",
        &[Is("torn"), Number, Byte],
        Asked::Files(FilesLine::Upset(UpsetLine::CrashTorn)),
    ),
    Form(
        "shift",
        &[Text, Byte],
        Asked::Files(FilesLine::Change(ChangeLine::Shift)),
    ),
    Form(
        "cut",
        &[Text, Number],
        Asked::Files(FilesLine::Change(ChangeLine::Cut)),
    ),
    Form(
        "break",
        &[Text, Number],
        Asked::Files(FilesLine::Change(ChangeLine::Break)),
    ),
    Form("try", &[Text], Asked::Copy(CopyLine::Try)),
    Form(
        "alike",
        &[Text, Number],
        Asked::Copy(CopyLine::Alike(CrashLine::All)),
    ),
    Form(
        "alike",
        &[Text, Number, Is("synced")],
        Asked::Copy(CopyLine::Alike(CrashLine::Synced)),
    ),
    Form(
        "alike",
        &[Text, Number, Is("torn"), Number, Byte],
        Asked::Copy(CopyLine::Alike(CrashLine::Torn)),
    ),
    Form("unread", &[Number, Number], Asked::Copy(CopyLine::Unread)),
    Form("has", &[Text, Bytes], Asked::Files(FilesLine::Has)),
    Form("is-folder", &[Text], Asked::Files(FilesLine::IsFolder)),
    Form("metadata", &[Text], Asked::Files(FilesLine::Metadata)),
    Form(
        "length",
        &[Text],
        Asked::Files(FilesLine::Count(CountLine::Bytes)),
    ),
    Form(
        "files",
        &[Text],
        Asked::Files(FilesLine::Count(CountLine::Files)),
    ),
    Form(
        "logs",
        &[Text],
        Asked::Files(FilesLine::Count(CountLine::Logs)),
    ),
    Form("fork", &[Text], Asked::Files(FilesLine::Fork)),
    Form("agree", &[Text], Asked::Files(FilesLine::Agree)),
    Form(
        "items",
        &[Text],
        Asked::Files(FilesLine::Items(ItemsLine::Any)),
    ),
    Form(
        "file-items",
        &[Text],
        Asked::Files(FilesLine::Items(ItemsLine::File)),
    ),
    Form(
        "folder-items",
        &[Text],
        Asked::Files(FilesLine::Items(ItemsLine::Folder)),
    ),
    Form(
        "places",
        &[Text],
        Asked::Files(FilesLine::Items(ItemsLine::Places)),
    ),
    Form("<", &[], Asked::Program(ProgramLine::Newline)),
    Form("read", &[Bytes], Asked::Program(ProgramLine::Read)),
    Form("serve", &[], Asked::Program(ProgramLine::Serve)),
    Form(
        "write",
        &[],
        Asked::Call(CallLine::Write(WriteLine::Batch(false))),
    ),
    Form(
        "write",
        &[Is("sync")],
        Asked::Call(CallLine::Write(WriteLine::Batch(true))),
    ),
    Form(
        "once",
        &[Numbers],
        Asked::Call(CallLine::Write(WriteLine::Once)),
    ),
    Form(
        "write-group",
        &[],
        Asked::Call(CallLine::Write(WriteLine::Group)),
    ),
    Form(
        "each",
        &[Number, Number, Number, Number, Bytes],
        Asked::Call(CallLine::Write(WriteLine::Each)),
    ),
    Form(
        "append",
        &[Number, Number, Number, Number, Bytes],
        Asked::Call(CallLine::Write(WriteLine::Append(false))),
    ),
    Form(
        "append",
        &[Number, Number, Number, Number, Bytes, Is("each")],
        Asked::Call(CallLine::Write(WriteLine::Append(true))),
    ),
    Form("sync", &[], Asked::Call(CallLine::Op(OpLine::Sync))),
    Form(
        "get",
        &[Number, Bytes],
        Asked::Call(CallLine::Op(OpLine::Get)),
    ),
    Form(
        "compact-to",
        &[Number, Number],
        Asked::Call(CallLine::Op(OpLine::CompactTo)),
    ),
    Form("first", &[Number], Asked::Call(CallLine::Op(OpLine::First))),
    Form("last", &[Number], Asked::Call(CallLine::Op(OpLine::Last))),
    Form("groups", &[], Asked::Call(CallLine::Op(OpLine::Groups))),
    Form(
        "rewrite",
        &[Is("append")],
        Asked::Call(CallLine::Op(OpLine::RewriteAppend)),
    ),
    Form(
        "rewrite",
        &[Is("append"), Bound, Bound],
        Asked::Call(CallLine::Op(OpLine::RewriteAppend)),
    ),
    Form(
        "rewrite",
        &[Is("groups"), Bound, Number, Number],
        Asked::Call(CallLine::RewriteGroups),
    ),
    Form(
        "rewrite",
        &[Is("rewrite")],
        Asked::Call(CallLine::Op(OpLine::RewriteRewrite)),
    ),
    Form(
        "rewrite",
        &[Is("rewrite"), Number, Number],
        Asked::Call(CallLine::RenewGroups),
    ),
    Form(
        "rewrite",
        &[Is("stale")],
        Asked::Call(CallLine::Op(OpLine::PurgeStale)),
    ),
    Form("purge", &[], Asked::Call(CallLine::Op(OpLine::Purge))),
    Form(
        "entry",
        &[Number, Number],
        Asked::Look(LookLine::Entry(EntryLine::Entry)),
    ),
    Form(
        "message-at",
        &[Number, Bytes],
        Asked::Look(LookLine::Entry(EntryLine::Message)),
    ),
    Form(
        "plain-entry",
        &[Number],
        Asked::Look(LookLine::Entry(EntryLine::PlainEntry)),
    ),
    Form(
        "plain-at",
        &[Number, Bytes],
        Asked::Look(LookLine::Entry(EntryLine::PlainMessage)),
    ),
    Form(
        "fetch",
        &[Number, Number, Number, Bound],
        Asked::Look(LookLine::Entry(EntryLine::Fetch)),
    ),
    Form(
        "whole",
        &[Number],
        Asked::Look(LookLine::Entry(EntryLine::Whole)),
    ),
    Form(
        "scan",
        &[Number, Key, Key, Is("most"), Number],
        Asked::Look(LookLine::Scan(false)),
    ),
    Form(
        "scan",
        &[Number, Key, Key, Is("back"), Is("most"), Number],
        Asked::Look(LookLine::Scan(true)),
    ),
    Form(
        "messages",
        &[Number],
        Asked::Look(LookLine::Messages(false)),
    ),
    Form(
        "messages",
        &[Number, Is("most"), Number],
        Asked::Look(LookLine::Messages(false)),
    ),
    Form(
        "messages",
        &[Number, Is("back"), Is("most"), Number],
        Asked::Look(LookLine::Messages(true)),
    ),
    Form("found", &[], Asked::Look(LookLine::Found)),
    Form(
        "empty",
        &[],
        Asked::Look(LookLine::Whole(WholeLine::IsEmpty)),
    ),
    Form(
        "failed",
        &[],
        Asked::Look(LookLine::Whole(WholeLine::HasFailed)),
    ),
    Form("used", &[], Asked::Look(LookLine::Whole(WholeLine::Used))),
    Form("path", &[], Asked::Look(LookLine::Whole(WholeLine::Path))),
    Form(
        "needs",
        &[Is("append")],
        Asked::Look(LookLine::Whole(WholeLine::NeedsAppend)),
    ),
    Form(
        "needs",
        &[Is("rewrite")],
        Asked::Look(LookLine::Whole(WholeLine::NeedsRewrite)),
    ),
    Form(
        "span",
        &[Is("append")],
        Asked::Look(LookLine::Whole(WholeLine::SpanAppend)),
    ),
    Form(
        "span",
        &[Is("rewrite")],
        Asked::Look(LookLine::Whole(WholeLine::SpanRewrite)),
    ),
];

impl Kind {
    // Whether the kind allows this word.
    fn takes(self, word: &str) -> bool {
        match self {
            Kind::Is(text) => word == text,
            Kind::Number => number_of(word.as_bytes()).is_some(),
            Kind::Byte => is_byte(word),
            Kind::Bound => word == "-" || number_of(word.as_bytes()).is_some(),
            _ => true,
        }
    }
}

fn are_numbers(words: &[&str]) -> bool {
    for word in words {
        if *word != "sync" && number_of(word.as_bytes()).is_none() {
            return false;
        }
    }
    true
}

fn are_of(kinds: &[Kind], words: &[&str]) -> bool {
    if let Some(Kind::Numbers) = kinds.first() {
        return are_numbers(words);
    }
    if kinds.len() != words.len() {
        return false;
    }
    for (kind, word) in kinds.iter().zip(words) {
        if !kind.takes(word) {
            return false;
        }
    }
    true
}

/// The form of a line.
pub(crate) fn form_of(first: &str, words: &[&str]) -> Option<Form> {
    for form in &FORMS {
        if form.0 == first && are_of(form.1, words) {
            return Some(*form);
        }
    }
    None
}
