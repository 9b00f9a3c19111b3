// A number is printed in ten decimal digits.
ghost use Rattle.values.specs.Forms.{number_form};
ghost use Rattle.values.specs.FormsLemmas.{number_forms};

use super::Number;
use crate::digits::Base;
use crate::form::Form;
use crate::printed::{Printed, PrintedKey};

impl Printed for Number {
    const WIDTH: usize = 10;

    ghost WIDTH = { 10 };

    ghost form = { number_form };

    ghost forms = { number_forms };

    fn printed(self) -> Form {
        Form::new().with_digits(10, self.value, Base::Decimal)
    }
}

impl PrintedKey for Number {}
