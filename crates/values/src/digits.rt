// The digits of printed forms, and the bases that they are written in.
// They are not written by `write!`, since no clause of it rules out an `Err`, and a form is always made.
ghost use Rattle.std.specs.Prelude.{◌≡◌, ◌<◌, ◌≤◌, length};
ghost use Rattle.values.specs.Bases.{radix};
ghost use Rattle.values.specs.Forms.{digit, digits};

#[derive(Clone, Copy)]
pub(crate) enum Base {
    Decimal,
    Hexadecimal,
}

impl Base {
    // Fills the places with the last digits of a number, the highest first.
    pub(crate) fn fill(self, places: &mut [u8], value: u32)
        ensures after { places.new ≡ digits (radix self) (length places.old) value }
    {
        match self {
            Base::Decimal => fill::<10>(places, value),
            Base::Hexadecimal => fill::<16>(places, value),
        }
    }
}

// The same in a base that is known when this is compiled: to divide by a number that is not takes much longer.
fn fill<const RADIX: u32>(places: &mut [u8], value: u32)
    requires { (2 ≤ RADIX) × (RADIX ≤ 16) }
    ensures after { places.new ≡ digits RADIX (length places.old) value }
{
    if let Some((last, front)) = places.split_last_mut() {
        *last = character(value % RADIX);
        fill::<RADIX>(front, value / RADIX);
    }
}

// The character of a digit: 0 to 9, then a to f.
fn character(value: u32) -> u8
    requires { value < 16 }
    ensures { result ≡ digit value }
{
    char::from_digit(value, 16).unwrap() as u8
}
