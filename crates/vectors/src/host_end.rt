// The host end and the journal on one line of the page.
use crate::input::Lines;
use crate::texts::Text;
use crate::{blocks, digests, form, journal_lines, pairs, settings, station_lines, writer};

// The master picker.
fn master(line: &[u8]) -> Text {
    let distances = [2, 11, 20, 29, 38].map(|at: usize| form::number(
        line,
        at,
        at.saturating_add(8),
    ));
    Text::new().hex(u64::from(host::pick_master(distances)), 1)
}

// What a line is answered.
fn answer(line: &[u8]) -> Text {
    // A chain and no table of functions: they differ in what they take.
    if form::fits(line, b"W hh f hh hh f hhhhhhhh hh") {
        return writer::answer(line, true);
    }
    if form::fits(line, b"W hh f hh hh f hhhhhhhh --") {
        return writer::answer(line, false);
    }
    if form::fits(line, b"M hhhhhhhh hhhhhhhh hhhhhhhh hhhhhhhh hhhhhhhh") {
        return master(line);
    }
    if form::fits(line, b"F k g hhhhhhhhhhhhhh hhh") {
        return settings::read_back(line);
    }
    if form::fits(line, b"U k hhhhhhhh") {
        return settings::shown(line);
    }
    if form::fits(line, b"D k") {
        return digests::answer(line);
    }
    if form::fits(line, b"G hhhhh hhhhh") {
        return pairs::answer(line);
    }
    if form::fits(
        line,
        b"A hh hh hhhhhhhhhhhhhhhh hh pdhhhhhhh pdhhhhhhh pdhhhhhhh pdhhhhhhh pdhhhhhhh",
    ) {
        return journal_lines::append(line);
    }
    if form::at(line, 0) == b'J' {
        return journal_lines::read(line);
    }
    if form::at(line, 0) == b'C' {
        return station_lines::answer(line);
    }
    blocks::answer(line)
}

// The page's lines, one by one.
#[derive(Drop)]
pub(crate) struct HostEnd;

impl Lines for HostEnd {
    fn take(&mut self, rt: &impl Print, line: &[u8]) {
        answer(line).print(rt);
    }
}
