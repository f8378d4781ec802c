// What a set has of its own: its picks and its spoils. A further set is a further part of each table, behind those that stand here. The
// remainders are there so that it need not be shown that the tables reach so far.
use Field::{Kind, Number, Seat, Value};

// The number of sets.
pub const SETS: u8 = 2;

const SET_COUNT: usize = SETS as usize;

// "Moods are eight in every set, and spoils twelve."
const MOODS: usize = 8;

const SPOIL_COUNT: usize = 12;

// "Sixteen scripts for each mood."
const PICK_COUNT: usize = 16;

const PICKS: [[[u8; PICK_COUNT]; MOODS]; SET_COUNT] = [
    // set 0
    [
        // mood 0: set-up
        [0, 0, 1, 1, 1, 2, 2, 3, 4, 5, 15, 18, 21, 28, 29, 48],
        // mood 1: receiving
        [0, 1, 3, 5, 6, 57, 7, 8, 9, 10, 11, 12, 13, 14, 53, 56],
        // mood 2: sending and modem
        [1, 4, 15, 59, 16, 17, 17, 18, 19, 20, 22, 25, 26, 54, 55, 11],
        // mood 3: edge mode
        [
            29, 34, 34, 35, 36, 42, 43, 50, 58, 58, 52, 53, 55, 46, 48, 2,
        ],
        // mood 4: level mode
        [
            30, 34, 34, 35, 37, 42, 43, 50, 58, 56, 53, 54, 55, 47, 48, 2,
        ],
        // mood 5: automatic end
        [
            31, 28, 39, 40, 42, 42, 38, 41, 58, 52, 53, 54, 55, 56, 46, 48,
        ],
        // mood 6: special mask
        [
            44, 44, 44, 45, 45, 58, 52, 53, 34, 35, 36, 37, 38, 42, 2, 54,
        ],
        // mood 7: edges
        [0, 1, 7, 8, 22, 23, 24, 27, 32, 33, 49, 51, 28, 21, 60, 2],
    ],
    // set 1
    [
        // mood 0: set-up and entering
        [0, 1, 1, 61, 61, 61, 62, 62, 63, 3, 4, 28, 29, 2, 65, 48],
        // mood 1: sending through
        [61, 1, 63, 63, 64, 64, 16, 15, 70, 68, 10, 11, 3, 4, 17, 59],
        // mood 2: modem
        [
            61, 65, 65, 66, 66, 18, 19, 25, 73, 54, 52, 58, 26, 62, 11, 71,
        ],
        // mood 3: edge mode
        [
            29, 34, 35, 42, 62, 62, 55, 58, 58, 2, 52, 56, 46, 48, 66, 65,
        ],
        // mood 4: level mode
        [
            30, 34, 36, 42, 62, 62, 55, 56, 54, 2, 58, 53, 47, 48, 63, 65,
        ],
        // mood 5: arrivals, time-outs
        [61, 67, 67, 68, 68, 70, 70, 70, 12, 13, 14, 5, 53, 72, 0, 1],
        // mood 6: break, on the way
        [61, 69, 69, 72, 72, 64, 20, 59, 16, 63, 65, 6, 57, 0, 1, 31],
        // mood 7: edges
        [61, 21, 22, 23, 24, 27, 71, 67, 60, 8, 7, 28, 51, 26, 69, 0],
    ],
];

// "0 kind, 1 seat, 2 number, 3 value": which byte of a record.
#[derive(Clone, Copy)]
pub(crate) enum Field {
    Kind,
    Seat,
    Number,
    Value,
}

// "Which byte, base, most."
#[derive(Clone, Copy)]
pub(crate) struct Spoil(pub Field, pub u8, pub u8);

// "Twelve entries, 0 to 11", for each set.
const SPOILS: [[Spoil; SPOIL_COUNT]; SET_COUNT] = [
    // set 0
    [
        Spoil(Seat, 7, 1),
        Spoil(Seat, 0, 255),
        Spoil(Number, 7, 1),
        Spoil(Number, 1, 1),
        Spoil(Number, 0, 255),
        Spoil(Value, 15, 1),
        Spoil(Value, 31, 1),
        Spoil(Value, 0, 255),
        Spoil(Kind, 8, 1),
        Spoil(Kind, 0, 8),
        Spoil(Kind, 0, 255),
        Spoil(Value, 0, 1),
    ],
    // set 1
    [
        Spoil(Seat, 7, 1),
        Spoil(Seat, 0, 255),
        Spoil(Number, 7, 1),
        Spoil(Number, 4, 2),
        Spoil(Number, 0, 255),
        Spoil(Value, 15, 1),
        Spoil(Value, 16, 15),
        Spoil(Value, 0, 255),
        Spoil(Kind, 1, 3),
        Spoil(Kind, 0, 8),
        Spoil(Kind, 0, 255),
        Spoil(Value, 31, 1),
    ],
];

// "Entry e of that mood's picks in the set"
pub(crate) fn script_at(set: u8, mood: u8, e: u8) -> u8 {
    let moods = PICKS[set as usize % SET_COUNT];
    let picks = moods[mood as usize % MOODS];
    picks[e as usize % PICK_COUNT]
}

pub(crate) fn spoil_at(set: u8, j: u8) -> Spoil {
    let spoils = SPOILS[set as usize % SET_COUNT];
    spoils[j as usize % SPOIL_COUNT]
}
