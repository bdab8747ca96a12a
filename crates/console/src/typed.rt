// The words that the program was started with, by their places, of which 0 is the program's name.
ghost use Rattle.std.specs.Prelude.{◌≤◌};
ghost use Rattle.arrayvec.specs.ArrayVec.{array_vec_len};

use arrayvec::ArrayVec;
use std::env::FillError;
use std::rt::Env;
use text::slice::part;

// The longest word that is looked at: the longest path is shorter.
pub(crate) const PATH_MAX: usize = 4096;

// A word: empty where there is none, or where it is longer than is asked for.
pub fn word<const N: usize>(rt: &impl Env, place: usize) -> ArrayVec<u8, N>
    ensures { array_vec_len result ≤ N }
{
    let mut room = [0; N];
    let length = rt.arg(place, &mut room).unwrap_or(0);
    let mut word = ArrayVec::new();
    let _ = word.try_extend_from_slice(part(&room, 0, length));
    word
}

// How many words there are, the program's name among them.
pub fn count(rt: &impl Env) -> usize {
    let mut nothing = [0u8; 0];
    for place in 0..usize::MAX {
        if let Err(FillError::NotPresent) = rt.arg(place, &mut nothing) {
            return place;
        }
    }
    usize::MAX
}
