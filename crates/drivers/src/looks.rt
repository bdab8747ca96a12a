// `card walk`: looks with given link reports, and where the walk stands after each.
use crate::{Numbers, number_words};
use arrayvec::ArrayVec;
use autosense::{Walk, Way};
use console::arguments::{Complained, complain};
use console::command::Command;
use console::option::Role;
use console::status::Status;
use console::typed;
use reader::Arguments;
use report::words;
use std::rt::Env;
use survey::Card;
use text::line::{Line, STDOUT};

// The longest report that is looked at: more than the digits of 255 blocks, since later ones are ignored.
const LONGEST: usize = 1000;

// The longest that is shown again: of a longer one the links that are up are named.
const SHOWN: usize = 16;

type Word = ArrayVec<u8, LONGEST>;

// ## Reports

fn is_report(word: &[u8]) -> bool {
    !word.is_empty() && word.iter().all(|digit| digit.is_ascii_digit())
}

// Whether each plain word from a place on is a report.
fn check_reports(rt: &impl Env, first: usize) -> Result<(), Complained> {
    let mut role = Role::Plain;
    for place in first..typed::count(rt) {
        let word = typed::word::<LONGEST>(rt, place);
        role = Role::of(&word, role, Command::Walk);
        if role == Role::Plain && !is_report(&word) {
            return Err(complain(rt, b"no row of 0 and 1", place).suggest(
                b"a REPORT has a digit for each block: 1 where its link is up",
            ));
        }
    }
    Ok(())
}

// A report's links, one a digit.
fn links_of(report: Word) -> Word {
    let mut links = report;
    for link in links.iter_mut() {
        *link = link.saturating_sub(b'0');
    }
    links
}

// The numbers of the links that are up, as many as are named.
fn up_words(line: Line, report: &[u8]) -> Line {
    let mut up = Numbers::new();
    let _ = up.extend(
        report
            .iter()
            .enumerate()
            .filter(|(_, digit)| **digit == b'1')
            .map(|(link, _)| link),
    );
    if up.is_empty() {
        line.text(b" none")
    } else {
        number_words(line, &up)
    }
}

// The start of a look's line: its report. Of a long one the links that are up have a line before it.
fn report_words(report: &[u8]) -> Line {
    let line = Line::new().to(2);
    if report.len() <= SHOWN {
        return line.text(report).text(b"  ");
    }
    up_words(line.text(b"links up:"), report).print();
    Line::new().to(4)
}

// ## Looks

// Before the first look, and where no medium can be, the number is that of no block.
fn selected_words(line: Line, card: Card, selected: u8) -> Line {
    match card.block_place(selected) {
        Some(place) => {
            let line = line.with(
                b"block # at byte #, ",
                [u64::from(selected), u64::from(place.start), 0, 0],
            );
            words::medium_words(line, report::block_bytes(card, place), place.kind)
        }
        None => line.text(b"none selected"),
    }
}

fn show_state(line: Line, card: Card, walk: &Walk) {
    let line = selected_words(line, card, walk.selected);
    let line = if walk.settled {
        line.text(b",")
    } else {
        line.text(b", not")
    };
    line.with(
        b" settled; looks #, switches #",
        [u64::from(walk.looks), u64::from(walk.switches), 0, 0],
    )
    .print();
}

// A look with a report, and where the walk stands after it; whether it is accepted.
fn show_look(card: Card, walk: &mut Walk, report: Word) -> bool {
    let line = report_words(&report);
    match autosense::look_lent(walk, &links_of(report)) {
        Ok(()) => {
            show_state(line, card, walk);
            true
        }
        Err(refusal) => {
            line.show(STDOUT);
            report::show_refusal(refusal.number());
            false
        }
    }
}

// A look with each report from a place on; whether all are accepted.
fn show_looks(rt: &impl Env, card: Card, walk: &mut Walk, first: usize) -> bool {
    let mut accepted = true;
    let mut role = Role::Plain;
    for place in first..typed::count(rt) {
        let word = typed::word::<LONGEST>(rt, place);
        role = Role::of(&word, role, Command::Walk);
        if role == Role::Plain {
            accepted &= show_look(card, walk, word);
        }
    }
    accepted
}

// ## The walk

// The end of a line that says how a walk goes by its connection type.
fn show_way(line: Line, connection: u16) {
    match autosense::way_of(connection) {
        Way::EveryLook => line.text(b"autosensed at every look").print(),
        Way::Once => line.text(b"autosensed once").print(),
        Way::Fixed => words::show_connection(line.text(b"fixed: "), connection),
    }
}

fn show_loaded(arguments: Arguments, given: bool, walk: &Walk) {
    report::arguments_words(Line::new().text(b"LOADED  "), arguments, given)
        .with(b", # blocks", [u64::from(walk.blocks), 0, 0, 0])
        .print();
    let line = words::connection_line(b"  connection type ", walk.connection);
    show_way(line, walk.connection);
}

// Loads the image and takes the looks, whose first report is a word; the status. The image's size may have been given.
pub fn show(rt: &impl Env, card: Card, given: bool, first: usize) -> Result<Status, Complained> {
    check_reports(rt, first)?;
    let mut walk = autosense::fresh();
    if let Err(refusal) = autosense::load_lent(&mut walk, card.image, card.arguments) {
        report::show_refused(card, given, refusal.number());
        return Ok(Status::Refused);
    }
    show_loaded(card.arguments, given, &walk);
    Ok(show_looks(rt, card, &mut walk, first).into())
}
