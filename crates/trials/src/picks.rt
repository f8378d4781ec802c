// The picks of a trial. A picker is its x: "a state as in State, of which only x is used".
ghost use Rattle.std.specs.Prelude.{◌≤◌};

#[derive(Clone, Copy)]
pub(crate) struct Picker(u32);

impl Picker {
    // "x is 4294967295 - seed"
    pub(crate) fn start(seed: u32) -> Picker {
        Picker(u32::MAX - seed)
    }

    // "pick(n)", with n one above most.
    pub(crate) fn pick(&mut self, most: u8) -> u8
        ensures { result ≤ most }
    {
        self.0 = streams::advance(self.0);
        streams::pick(self.0, most)
    }

    // "Two picks, first t = pick(16), then u = pick(44)": a spot in an image.
    pub(crate) fn spot(&mut self) -> u16
        ensures { result ≤ 703 }
    {
        let t = self.pick(15);
        let u = self.pick(43);
        44 * t as u16 + u as u16
    }
}
