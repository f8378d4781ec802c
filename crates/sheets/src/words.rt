// A word of the command line.
ghost use Rattle.std.specs.Prelude.{◌≡◌};
ghost use Rattle.sheets.specs.Numbers.{clock_in, clock_of};

use crate::Numbers;
use crate::four::byte;

impl Numbers {
    // The clock, where the first number is all that was read.
    fn clock(self) -> Option<u8>
        ensures { result ≡ clock_in self }
    {
        if (self.place == 0) & self.begun {
            return Some(byte(self.values[0]));
        }
        None
    }
}

pub fn read_clock(word: &[u8]) -> Option<u8>
    ensures { result ≡ clock_of word.now }
{
    let mut numbers = Numbers::start();
    for c in word {
        numbers = numbers.after(*c);
    }
    numbers.clock()
}
