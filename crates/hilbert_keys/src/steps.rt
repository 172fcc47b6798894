// How the curve goes on from a cell to a child, by a table of turns.
ghost use Rattle.std.specs.Prelude.{◌≡◌, ◌<◌, ◌+◌, ◌*◌, slice_index};
ghost use Rattle.hilbert_keys.specs.Steps.{descents};

// For each turn, by 3 · corner + axis, and each place: 8 · the next turn + the child there.
const DESCENTS: [u8; 192] = [
    8, 18, 22, 148, 149, 143, 139, 81, 16, 4, 5, 129, 131, 79, 78, 162, 0, 9, 11, 90, 94, 159, 157,
    124, 33, 43, 47, 173, 172, 118, 114, 56, 41, 29, 28, 104, 106, 54, 55, 187, 25, 32, 34, 67, 71,
    182, 180, 101, 58, 64, 68, 102, 103, 189, 185, 35, 66, 54, 55, 179, 177, 29, 28, 112, 50, 59,
    57, 40, 44, 109, 111, 174, 83, 89, 93, 127, 126, 164, 160, 10, 91, 79, 78, 154, 152, 4, 5, 137,
    75, 82, 80, 17, 21, 132, 134, 151, 108, 118, 114, 48, 49, 43, 47, 181, 116, 96, 97, 37, 39,
    171, 170, 70, 100, 109, 111, 190, 186, 59, 57, 24, 133, 143, 139, 73, 72, 18, 22, 156, 141,
    121, 120, 12, 14, 146, 147, 95, 125, 132, 134, 167, 163, 82, 80, 1, 158, 164, 160, 2, 3, 89,
    93, 135, 166, 146, 147, 87, 85, 121, 120, 20, 150, 159, 157, 140, 136, 9, 11, 74, 183, 189,
    185, 27, 26, 64, 68, 110, 191, 171, 170, 62, 60, 96, 97, 45, 175, 182, 180, 117, 113, 32, 34,
    51,
];

/// The entry for a turn and a place: 8 · the next turn + the child there.
#[tactic(auto, unfolding(crate::specs::Steps::descents))]
pub(crate) fn descent(turn: u8, place: u8) -> u8
    requires turn { turn < 24 }
    requires place { place < 8 }
    ensures { result ≡ slice_index descents (turn * 8 + place) }
{
    DESCENTS[turn as usize * 8 + place as usize]
}
