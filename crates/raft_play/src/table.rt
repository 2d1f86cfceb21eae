//! A file of lines, played from its first to its last.

use crate::line::BAD_LINE;
use crate::session::Session;
use raft_test_rows::{Faulty, Held};
use std::alloc::{AllocError, Global};
use std::thread::Threads;

/// In place of an expected result: every result is right.
const EVERY: &str = "..";

/// The counts of a played file.
#[derive(Drop)]
pub(crate) struct Tally {
    pub(crate) stories: u64,
    /// The number of lines with a request, and of those with an expected result.
    pub(crate) lines: u64,
    pub(crate) answers: u64,
    pub(crate) wrong: u64,
    /// The first line with a wrong result, and that result.
    pub(crate) first_wrong: Option<String>,
}

// The request of a line, and its expected result, if it has one.
fn parts(line: &str) -> (&str, Option<&str>) {
    if line.starts_with("< ") {
        return (line, None);
    }
    if let Some(printed) = line.strip_prefix("> ") {
        return (">", Some(printed));
    }
    match line.split_once(" = ") {
        Some((asked, wanted)) => (asked, Some(wanted)),
        None => (line, None),
    }
}

fn has_answer(wanted: Option<&str>) -> bool {
    match wanted {
        Some(wanted) => wanted != EVERY,
        None => false,
    }
}

// A line without an expected result accepts all results except `refused ..` and `no`.
fn is_right(answered: &str, wanted: Option<&str>) -> bool {
    match wanted {
        _ if answered == BAD_LINE => false,
        Some(wanted) => wanted == EVERY || answered == wanted,
        None => !answered.starts_with("refused") && answered != "no",
    }
}

impl Tally {
    // Counts a line, and keeps the first one with a wrong result.
    fn count(
        &mut self,
        alloc: Global,
        number: usize,
        line: &str,
        wanted: Option<&str>,
        answered: &str,
    ) -> Result<(), AllocError> {
        self.lines = self.lines.saturating_add(1);
        if has_answer(wanted) {
            self.answers = self.answers.saturating_add(1);
        }
        if is_right(answered, wanted) {
            return Ok(());
        }
        self.wrong = self.wrong.saturating_add(1);
        if self.first_wrong.is_none() {
            let text = format!(in alloc; "line {number}: {line}: was {answered}")?;
            self.first_wrong = Some(text);
        }
        Ok(())
    }

    fn play_line<R: Threads + Sync, F: Faulty>(
        &mut self,
        rt: &R,
        alloc: Global,
        session: &mut Session,
        held: &mut Held<F>,
        number: usize,
        line: &str,
    ) -> Result<(), AllocError> {
        if line.starts_with("story ") {
            self.stories = self.stories.saturating_add(1);
            return session.renew(held);
        }
        let (asked, wanted) = parts(line);
        session.answer(rt, held, asked)?;
        self.count(alloc, number, line, wanted, session.line.answer())
    }
}

/// Plays the lines over new files of this kind.
pub(crate) fn play<R: Threads + Sync, F: Faulty>(
    rt: &R,
    alloc: Global,
    text: &str,
) -> Result<Tally, AllocError> {
    let mut held: Held<F> = Held::Nothing;
    play_lines(rt, alloc, &mut held, text)
}

fn play_lines<R: Threads + Sync, F: Faulty>(
    rt: &R,
    alloc: Global,
    held: &mut Held<F>,
    text: &str,
) -> Result<Tally, AllocError> {
    let mut session = Session::new(alloc);
    let mut tally = Tally {
        stories: 0,
        lines: 0,
        answers: 0,
        wrong: 0,
        first_wrong: None,
    };
    for (place, line) in text.lines().enumerate() {
        if !line.is_empty() && !line.starts_with("#") {
            let number = place.saturating_add(1);
            tally.play_line(rt, alloc, &mut session, held, number, line)?;
        }
    }
    Ok(tally)
}
