// From a row to a record, and a record spoiled.
use crate::columns::Row;
use crate::sets::{Field, Spoil};
use base::Whole;

// A row of this kind or above is for any seat; what is above it is the record's kind.
const ANY_SEAT: u8 = 16;

// The kinds up to this one have a seat.
const LAST_OF_SEAT: u8 = 4;

const SEATS: u8 = 8;

impl Row {
    // "If the row's kind is 16 or more, f % 8; else if it is 4 or less, the state's seat; else f."
    fn seat_of(self, seat: u8, f: u8) -> u8 {
        match self.kind {
            ANY_SEAT.. => f % SEATS,
            ..=LAST_OF_SEAT => seat,
            _ => f,
        }
    }

    // "Three draws, all always": what they gave.
    pub(crate) fn asked(self, seat: u8, f: u8, g: u8, h: u8) -> Whole {
        Whole {
            kind: self.kind % ANY_SEAT,
            seat: self.seat_of(seat, f),
            number: self.number.wrapping_add(g),
            value: self.value.wrapping_add(self.step.wrapping_mul(h)),
        }
    }
}

impl Spoil {
    // "Byte `which` of the record is replaced by (base of spoil j + k) % 256."
    pub(crate) fn apply(self, record: &mut Whole, k: u8) {
        let Spoil(which, base, _) = self;
        let byte = base.wrapping_add(k);
        match which {
            Field::Kind => record.kind = byte,
            Field::Seat => record.seat = byte,
            Field::Number => record.number = byte,
            Field::Value => record.value = byte,
        }
    }
}
