// The printed form of a value: a text of at most 16 bytes.
ghost use Rattle.std.specs.Prelude.{◌≤◌, length};

use arrayvec::ArrayString;

mod writing;

// No form is wider.
pub const WIDEST: usize = 16;

#[derive(Clone, Copy)]
pub struct Form {
    text: ArrayString<WIDEST>,
    // so that every form of the specifications has at most 16 bytes
    ghost within: { length text.bytes ≤ 16 },
}
