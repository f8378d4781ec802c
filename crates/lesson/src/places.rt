// Lines and columns.
ghost use Rattle.std.specs.Prelude.{◌≡◌, ◌≤◌, length};
ghost use Rattle.lesson.specs.Place.{place_behind};
ghost use Rattle.lesson.specs.Place.{onward as Place·onward};

#[derive(Clone, Copy)]
pub(crate) struct Place {
    pub(crate) line: usize,
    pub(crate) column: usize,
}

impl Place {
    fn onward(self, c: u8) -> Place
        requires { (self.line ≤ 4294967296) × (self.column ≤ 4294967296) }
        ensures { result ≡ Place·onward self c }
    {
        if c == b'\n' {
            return Place {
                line: self.line + 1,
                column: 1,
            };
        }
        Place {
            column: self.column + 1,
            ..self
        }
    }
}

// The place right behind a text.
pub(crate) fn place_behind(text: &[u8]) -> Place
    requires { length text.now ≤ 4294967295 }
    ensures { result ≡ place_behind text.now }
{
    let mut place = Place { line: 1, column: 1 };
    for c in text {
        place = place.onward(*c);
    }
    place
}
