// One wound of an image, or two: a byte replaced, or a transfer between tallies.
ghost use Rattle.std.specs.Prelude.{◌≤◌};
ghost use Rattle.trials.specs.Places.{last_place};

use crate::buffers::Buffer;
use crate::picks::Picker;
use crate::transfers::Transfer;

const ROWS: usize = 56;

// "Fifty-six rows, 0 to 55: place, low, most."
const WOUNDS: [[u8; 3]; ROWS] = [
    [2, 79, 1],
    [3, 2, 254],
    [4, 1, 254],
    [5, 0, 5],
    [6, 0, 2],
    [7, 0, 255],
    [8, 0, 9],
    [9, 0, 255],
    [10, 0, 255],
    [11, 0, 2],
    [12, 0, 2],
    [13, 0, 2],
    [14, 0, 2],
    [15, 0, 255],
    [16, 0, 31],
    [17, 0, 1],
    [17, 0, 255],
    [17, 192, 15],
    [18, 0, 255],
    [19, 0, 31],
    [20, 0, 31],
    [22, 0, 31],
    [23, 0, 1],
    [26, 0, 2],
    [27, 0, 15],
    [28, 0, 2],
    [29, 0, 5],
    [29, 1, 3],
    [30, 0, 2],
    [31, 0, 255],
    [32, 0, 17],
    [32, 2, 254],
    [33, 0, 255],
    [48, 0, 1],
    [49, 0, 17],
    [49, 2, 254],
    [50, 0, 255],
    [65, 0, 1],
    [66, 0, 15],
    [81, 0, 8],
    [3, 0, 3],
    [82, 0, 255],
    [82, 0, 15],
    [83, 0, 1],
    [85, 0, 255],
    [86, 0, 255],
    [87, 0, 1],
    [89, 0, 255],
    [90, 0, 15],
    [93, 0, 255],
    [94, 0, 15],
    [97, 128, 127],
    [98, 0, 17],
    [98, 0, 255],
    [99, 0, 1],
    [101, 0, 1],
];

// "If that is 16 or more, r * c more": the same field of seat c.
fn place_of(copy: &Buffer, place: u8, c: u8) -> u16
    ensures { result ≤ last_place }
{
    let place = place as u16;
    if place < 16 {
        place
    } else {
        place - 16 + copy.record_at(c)
    }
}

// "Nine picks, all always and in this order." "If a is 7 or less, one byte of the copy is replaced." "If a is 8 or more, the wound is a transfer."
fn wound(copy: &mut Buffer, picker: &mut Picker) {
    let a = picker.pick(11);
    let b = picker.spot();
    let c = picker.pick(7);
    let d = picker.pick(255);
    let e = picker.pick(55);
    let [place, low, most] = WOUNDS[e as usize];
    let f = picker.pick(most);
    let y = picker.pick(3);
    let o = picker.pick(3);
    // "Let z be (y + 1 + o) % 5, which is not y."
    let z = (y + 1 + o) % 5;
    let transfer = Transfer { c, y, z };
    match a {
        0 | 1 => copy.put(b, &[d]),
        2 | 3 => {
            let [stood]: [u8; 1] = copy.part(b);
            copy.put(b, &[stood ^ (1 << c)]);
        }
        4 => copy.put(b, &[d % 18]),
        5..=7 => copy.put(place_of(copy, place, c), &[low.wrapping_add(f)]),
        8 => transfer.make(copy, |_, _| d as u32),
        9 => transfer.make(copy, |_, _| 16777216 * d as u32),
        // What brings arrived to its largest value, or up to three below it.
        10 => transfer.make(
            copy,
            |arrived, _| (u32::MAX - d as u32 % 4).wrapping_sub(arrived),
        ),
        _ => transfer.make(copy, |_, y| y),
    }
}

// "w = pick(4). Make two wounds in the copy if w is 0, else one."
pub(crate) fn make(copy: &mut Buffer, picker: &mut Picker) {
    let w = picker.pick(3);
    wound(copy, picker);
    if w == 0 {
        wound(copy, picker);
    }
}
