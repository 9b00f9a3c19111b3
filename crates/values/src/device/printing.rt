// A device is printed as its class in two digits, a slash, and its number in five.
ghost use Rattle.values.specs.Forms.{device_form};
ghost use Rattle.values.specs.FormsLemmas.{device_forms};

use super::Device;
use crate::digits::Base;
use crate::form::Form;
use crate::printed::{Printed, PrintedKey};

impl Printed for Device {
    const WIDTH: usize = 8;

    ghost WIDTH = { 8 };

    ghost form = { device_form };

    ghost forms = { device_forms };

    fn printed(self) -> Form {
        Form::new()
            .with_digits(2, self.class.into(), Base::Decimal)
            .with_character('/')
            .with_digits(5, self.number.into(), Base::Decimal)
    }
}

impl PrintedKey for Device {}
