// What is decoded of each text on standard input, one line a text: the problem or 0, the number of lines read, and the bytes.
// A text is filled up to 1,024 bytes with blanks.
#![tactic(auto)]

ghost use Rattle.std.specs.Prelude.{◌≡◌};
ghost use Rattle.hexadecimal.specs.Held.{problem_number};

use hexadecimal::{DecodedText, Problem};
use text::line::{STDIN, STDOUT};

// The number of a problem, 0 for none.
fn number_of(problem: Option<Problem>) -> u8
    ensures { result ≡ problem_number problem }
{
    problem.map_or(0, |problem| problem as u8)
}

fn print_reading(reading: &DecodedText) {
    io::print_decimal(STDOUT, u64::from(number_of(reading.held.problem)));
    io::write_all(STDOUT, b" ");
    io::print_decimal(STDOUT, u64::from(reading.line));
    io::write_all(STDOUT, b" ");
    vectors::print_bytes(&reading.held.bytes);
    io::write_all(STDOUT, b"\n");
}

fn main() {
    for _ in 0..1_000_000 {
        let mut source = [0; 1024];
        let got = io::read_full(STDIN, &mut source);
        if got == 0 {
            return;
        }
        print_reading(&hexadecimal::decode(&source[..got]));
    }
}
