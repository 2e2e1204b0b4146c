// Numbers that are put with a tab before them, each by the signed number that it is.
ghost use Rattle.std.specs.Prelude.{◌∷◌, ℤ, pos};
ghost use Rattle.text.specs.Decimal.{decimal_z};
ghost use Rattle.text.specs.Puts.{WroteAtMost};
ghost use Rattle.wording.specs.Limits.{field};

use air::Millikelvin;
use gas::Heat;
use text::Pen;

// A number of an answer.
pub trait Tabbed: Copy {
    ghost value: { Self → ℤ };

    // A tab and the number.
    fn put(self, pen: &mut Pen<'_>)
        ensures { WroteAtMost field (9 ∷ decimal_z (value self)) pen.old pen.new };
}

impl Tabbed for u64 {
    ghost value = { pos };

    fn put(self, pen: &mut Pen<'_>) {
        crate::put_number(self, pen)
    }
}

impl Tabbed for i64 {
    ghost value = { λ z. z };

    fn put(self, pen: &mut Pen<'_>) {
        crate::put_signed(self, pen)
    }
}

impl Tabbed for Heat {
    ghost value = { λ h. h.0 };

    fn put(self, pen: &mut Pen<'_>) {
        crate::put_signed(self.0, pen)
    }
}

impl Tabbed for Millikelvin {
    ghost value = { λ t. t.0 };

    fn put(self, pen: &mut Pen<'_>) {
        crate::put_signed(self.0, pen)
    }
}
