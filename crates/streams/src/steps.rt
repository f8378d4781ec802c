// The five steps of one event, in the order of the draws.
ghost use Rattle.std.specs.Prelude.{◌≤◌};

use crate::columns::COLUMNS;
use crate::draws::{advance, pick};
use crate::sets::Spoil;
use crate::{Stream, columns, scripts, sets};
use base::Whole;

impl Stream {
    // "draw(n)", with n one above most.
    fn draw(&mut self, most: u8) -> u8
        ensures { result ≤ most }
    {
        self.x = advance(self.x);
        pick(self.x, most)
    }

    // "New script. Only if left is 0 and row equals stop: make five draws, a = draw(12), b = draw(8), c = draw(4), d = draw(8),
    // e = draw(16), all five always."
    fn new_script(&mut self) {
        if self.left > 0 || self.row != self.stop {
            return;
        }
        let a = self.draw(11);
        let b = self.draw(7);
        let c = self.draw(3);
        let d = self.draw(7);
        let e = self.draw(15);
        if a == 0 {
            self.mood = b;
        }
        if c == 0 {
            self.seat = d;
        }
        let span = scripts::span_of(sets::script_at(self.set, self.mood, e));
        self.row = span.row;
        self.stop = span.stop;
    }

    // "New row. Only if left is 0."
    fn new_row(&mut self, rows: &[[u8; COLUMNS]]) {
        if self.left == 0 {
            let row = columns::row_at(rows, self.row);
            self.left = 1 + self.draw(row.times);
        }
    }

    // "The record. Three draws, all always: f = draw(256), g = draw(number most + 1), h = draw(value most + 1)."
    fn ask(&mut self, rows: &[[u8; COLUMNS]]) -> Whole {
        let row = columns::row_at(rows, self.row);
        let f = self.draw(255);
        let g = self.draw(row.spread);
        let h = self.draw(row.most);
        row.asked(self.seat, f, g, h)
    }

    // "Count." Left is above 0 here and "neither row nor stop passes the number of rows", so that nothing wraps.
    fn count(&mut self) {
        self.left = self.left.wrapping_sub(1);
        if self.left == 0 {
            self.row = self.row.wrapping_add(1);
        }
    }

    // "Spoil. Three draws, all always: i = draw(96), j = draw(12), k = draw(most of spoil j + 1)." "If i is 0, byte `which` of the
    // record is replaced; if i is 1, the script is left."
    fn spoil(&mut self, record: &mut Whole) {
        let i = self.draw(95);
        let j = self.draw(11);
        let spoil = sets::spoil_at(self.set, j);
        let Spoil(_, _, most) = spoil;
        let k = self.draw(most);
        match i {
            0 => spoil.apply(record, k),
            1 => self.leave(),
            _ => {}
        }
    }

    // "The script is left: left becomes 0 and row becomes stop."
    fn leave(&mut self) {
        self.left = 0;
        self.row = self.stop;
    }

    // The next event; the stream stands behind it then. The rows are those of `script_rows`.
    pub fn next(&mut self, rows: &[[u8; COLUMNS]]) -> Whole {
        self.new_script();
        self.new_row(rows);
        let mut record = self.ask(rows);
        self.count();
        self.spoil(&mut record);
        record
    }
}
