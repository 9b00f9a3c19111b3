// A least holding is printed in ten decimal digits.
ghost use Rattle.values.specs.Forms.{least_form};
ghost use Rattle.values.specs.FormsLemmas.{least_forms};

use super::Least;
use crate::digits::Base;
use crate::form::Form;
use crate::printed::{Printed, PrintedHolding};

impl Printed for Least {
    const WIDTH: usize = 10;

    ghost WIDTH = { 10 };

    ghost form = { least_form };

    ghost forms = { least_forms };

    fn printed(self) -> Form {
        Form::new().with_digits(10, self.value, Base::Decimal)
    }
}

impl PrintedHolding for Least {}
