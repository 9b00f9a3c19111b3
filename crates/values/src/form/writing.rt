// Forms made of digits and single characters, and read as bytes.
ghost use Rattle.std.specs.Prelude.{◌≡◌, ◌+◌, ◌<◌, ◌≤◌, [], ◌∷◌, ◌++◌, length};
ghost use Rattle.values.specs.Bases.{radix};
ghost use Rattle.values.specs.Forms.{digits};
ghost use Rattle.values.specs.Texts.{text};

use super::{Form, WIDEST};
use crate::digits::Base;
use arrayvec::ArrayString;
use std::str;

impl Form {
    // The form of no bytes.
    pub(crate) fn new() -> Form
        ensures value { text result ≡ [] }
    {
        Form {
            text: ArrayString::new(),
        }
    }

    // The same with the last digits of a number behind it, as many as the width says, the highest first.
    pub(crate) fn with_digits(mut self, width: usize, value: u32, base: Base) -> Form
        requires { length (text self) + width ≤ 16 }
        ensures value { text result ≡ text self ++ digits (radix base) width value }
        ensures len { length (text result) ≡ length (text self) + width }
    {
        let mut places = [0; WIDEST];
        let places = &mut places[..width];
        base.fill(places, value);
        self.text.push_str(str::from_utf8(places).unwrap());
        self
    }

    // The same with one character behind it.
    pub(crate) fn with_character(mut self, character: char) -> Form
        requires room { length (text self) < 16 }
        requires ascii { character < 128 }
        ensures value { text result ≡ text self ++ character ∷ [] }
        ensures len { length (text result) ≡ length (text self) + 1 }
    {
        self.text.push(character);
        self
    }

    pub fn as_bytes(&self) -> &[u8]
        ensures value { result.now ≡ text self.now }
    {
        self.text.as_str().as_bytes()
    }
}
