// A sheet list that was judged and accepted, for the calls that take one: what is read from it needs no further test.
ghost use Rattle.std.specs.Prelude.{◌≡◌};
ghost use Rattle.rows.specs.Rows.{rows_h};
ghost use Rattle.sheet.specs.Sheet.{Accepted};

// An accepted sheet, with the air's heats by which it was judged.
#[derive(Clone, Copy)]
pub struct AcceptedSheet<'a> {
    pub list: &'a [u32; crate::NUMBERS],
    pub heats: &'a [u32; rows::ROWS],
    pub ghost accepted: { Accepted list.now },
    pub ghost heats_are: { heats.now ≡ rows_h },
}
