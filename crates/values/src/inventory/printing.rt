// An inventory is printed as its firmware in five digits, its services in four hexadecimal digits, and its
// delay in five digits, with slashes between.
ghost use Rattle.values.specs.Forms.{inventory_form};
ghost use Rattle.values.specs.FormsLemmas.{inventory_forms};

use super::Inventory;
use crate::digits::Base;
use crate::form::Form;
use crate::printed::{Printed, PrintedHolding};

impl Printed for Inventory {
    const WIDTH: usize = 16;

    ghost WIDTH = { 16 };

    ghost form = { inventory_form };

    ghost forms = { inventory_forms };

    fn printed(self) -> Form {
        Form::new()
            .with_digits(5, self.firmware.into(), Base::Decimal)
            .with_character('/')
            .with_digits(4, self.services.into(), Base::Hexadecimal)
            .with_character('/')
            .with_digits(5, self.delay.into(), Base::Decimal)
    }
}

impl PrintedHolding for Inventory {}
