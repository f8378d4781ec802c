// The digits of a record's number before its last, kept from one record to the next.
ghost use Rattle.std.specs.Prelude.{◌≡◌, ◌≤◌, length, take};
ghost use Rattle.listing.specs.Kept.{Fronts, Stays};

// No number of 64 bits has more digits.
const MOST: usize = 20;

#[derive(Clone, Copy)]
pub(crate) struct Front {
    pub(crate) digits: [u8; MOST],
    pub(crate) count: usize,
}

impl Front {
    pub(crate) fn of(n: u64) -> Front
        ensures { Fronts result.digits result.count n }
    {
        let mut digits = [0u8; MOST];
        let count = text::put_front(&mut digits, n);
        Front { digits, count }
    }

    pub(crate) fn shown(&self) -> &[u8]
        requires { self.now.count ≤ length self.now.digits }
        ensures { result.now ≡ take self.now.count self.now.digits }
    {
        &self.digits[..self.count]
    }

    // They stay unless n is the first of its ten: nine times of ten nothing is divided.
    pub(crate) fn keep(&mut self, n: u64)
        requires { Stays self.old.digits self.old.count n }
        ensures { Fronts self.new.digits self.new.count n }
    {
        if n % 10 == 0 {
            self.count = text::put_front(&mut self.digits, n);
        }
    }
}
