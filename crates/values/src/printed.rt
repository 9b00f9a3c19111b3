// Keys and holdings as they are printed: every value of a kind in the same number of bytes.
ghost use Rattle.std.specs.Prelude.{◌≡◌, ℕ, List, ◌++◌, length, drop, OnOk, OnErr};
ghost use Rattle.values.specs.Forms.{Forms, written};
ghost use Rattle.values.specs.Texts.{text};

use crate::form::Form;
use crate::holding::Holding;
use crate::key::KeyOrder;
use base::refusal::Refusal;

pub trait Printed: Copy {
    // How many bytes a form has, 1 to 16.
    const WIDTH: usize;

    // the same number, for clauses
    ghost WIDTH: { ℕ };

    ghost form: { Self → List ℕ };

    fn printed(self) -> Form
        ensures value { text result ≡ form self };

    ghost forms: { Forms WIDTH form };
}

// A key that can be printed. An election needs the order alone.
pub trait PrintedKey: KeyOrder + Printed {}

// A holding that can be printed.
pub trait PrintedHolding: Holding + Printed {}

// Writes the form of a value at the front of the places; those behind it stay.
pub fn write_form<F: Printed>(value: F, places: &mut [u8]) -> Result<(), Refusal>
    ensures value { result ≡ written F.WIDTH (length places.old) }
    ensures ok { OnOk result (places.new ≡ F.form value ++ drop F.WIDTH places.old) }
    ensures err { OnErr result (places.new ≡ places.old) }
    ensures only { (other : F) → F.form other ≡ F.form value → other ≡ value }
{
    if places.len() < F::WIDTH {
        return Err(Refusal::DoesNotFit);
    }
    let form = value.printed();
    places[..F::WIDTH].copy_from_slice(form.as_bytes());
    Ok(())
}
