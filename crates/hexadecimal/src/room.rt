// The room that a text's bytes are held in: an array and no `ArrayVec`, which is not `Copy`.
ghost use Rattle.std.specs.Prelude.{◌≡◌, ◌<◌, ◌≤◌, ◌↔◌, [], ◌∷◌, ◌++◌, length, IsTrue};

use crate::held::ROOM;
use std::marker::Model;
use std::ops::DerefSlice;

// As many bytes as there is room for. The rest of the room is 0.
#[derive(Clone, Copy)]
pub struct HeldBytes {
    room: [u8; ROOM],
    length: usize,
}

impl Model for HeldBytes {
    ghost use Rattle.std.specs.Prelude.{ℕ};
    ghost use Rattle.std.specs.Coded.{coded_ℕ};
    ghost use Rattle.arrayvec.specs.ArrayVec.{ArrayVec, array_vec_code};

    ghost Value = { ArrayVec ℕ };

    ghost coded = { array_vec_code coded_ℕ };

    ghost use Rattle.hexadecimal.specs.Room.{in_room, IsInRoom, room_of, room_of-in_room};

    ghost view = { in_room };

    ghost invariant = { IsInRoom };

    ghost inverse = { room_of };

    ghost inverse_ok = { room_of-in_room };
}

impl DerefSlice for HeldBytes {
    type Elem = u8;

    ghost deref_gives = { λ bytes slice. (slice ≡ bytes.items) × (length slice ≤ 2048) };

    fn deref(&self) -> &[u8] {
        self.as_slice()
    }
}

impl HeldBytes {
    pub(crate) fn new() -> HeldBytes
        ensures { result.items ≡ [] }
    {
        HeldBytes {
            room: [0; ROOM],
            length: 0,
        }
    }

    pub fn as_slice(&self) -> &[u8]
        ensures value { result.now ≡ self.now.items }
        ensures fits { length result.now ≤ 2048 }
    {
        &self.room[..self.length]
    }

    pub fn len(&self) -> usize
        ensures value { result ≡ length self.now.items }
        ensures fits { result ≤ 2048 }
    {
        self.as_slice().len()
    }

    pub(crate) fn is_full(&self) -> bool
        ensures { IsTrue result ↔ (2048 ≤ length self.now.items) }
    {
        self.length == ROOM
    }

    pub(crate) fn push(&mut self, byte: u8)
        requires { length self.old.items < 2048 }
        ensures { self.new.items ≡ self.old.items ++ byte ∷ [] }
    {
        self.room[self.length] = byte;
        self.length += 1;
    }
}
