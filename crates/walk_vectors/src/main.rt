// The walk over each record's list of calls on standard input, one line a call. A record is the image's length (word), chip
// (word), controller, level, stated size (word), layout (1 with a Magic Packet block, 0 without), edition (1 for 1.00, 0 for
// 1.01), the number of calls, the image and the calls; a call is 0 for a load, 1 for a clear, or 2, a length and a report for a
// look.
#![tactic(auto)]

use arrayvec::ArrayVec;
use reader::Arguments;
use rom::Refusal;
use vectors::{print, print_number};
use walk::Walk;

// The bytes of a record before the image's.
const HEAD: usize = 11;

// A call, and the report of a look.
#[derive(Drop)]
enum WalkCall {
    Load,
    Clear,
    Look(ArrayVec<u8, 255>),
}

fn print_selected(selected: u8) {
    if selected == rom::NONE {
        print(b"none");
    } else {
        print_number(u64::from(selected));
    }
}

fn print_walk(walk: &Walk) {
    if !walk.loaded {
        print(b"fresh");
        return;
    }
    if walk.settled {
        print(b"settled ");
    } else {
        print(b"unsettled ");
    }
    print_selected(walk.selected);
    print(b" ");
    print_number(u64::from(walk.looks));
    print(b" ");
    print_number(u64::from(walk.switches));
}

fn print_line(answer: Result<(), Refusal>, walk: &Walk) {
    match answer {
        Ok(()) => print_number(0),
        Err(refusal) => print_number(u64::from(refusal.number())),
    }
    print(b" ");
    print_walk(walk);
    print(b"\n");
}

// The next byte of the input, 0 at its end.
fn next_byte() -> u8 {
    let byte = vectors::next_bytes::<1>(1);
    byte.first().copied().unwrap_or(0)
}

fn next_call() -> WalkCall {
    match next_byte() {
        0 => WalkCall::Load,
        1 => WalkCall::Clear,
        _ => WalkCall::Look(vectors::next_bytes(usize::from(next_byte()))),
    }
}

fn take(
    call: WalkCall,
    walk: &mut Walk,
    image: &[u8],
    arguments: Arguments,
) -> Result<(), Refusal> {
    match call {
        WalkCall::Load => autosense::load_lent(walk, image, arguments),
        WalkCall::Clear => {
            autosense::clear_lent(walk);
            Ok(())
        }
        WalkCall::Look(report) => autosense::look_lent(walk, &report),
    }
}

fn run(image: &[u8], arguments: Arguments, calls: u8) {
    let mut walk = autosense::fresh();
    for _ in 0..calls {
        let answer = take(next_call(), &mut walk, image, arguments);
        print_line(answer, &walk);
    }
}

fn main() {
    for _ in 0..vectors::RECORDS {
        let Some(record) = vectors::next_record::<HEAD>() else {
            return;
        };
        let head = record.head;
        run(&record.rest, vectors::arguments_in(&head), head[10]);
    }
}
