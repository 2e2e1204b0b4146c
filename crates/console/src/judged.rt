// A sheet with the list that it was judged on.
ghost use Rattle.std.specs.Prelude.{IfOk, ◌≡◌};
ghost use Rattle.console.specs.Answers.{Judged, verdict_in};

use refusal::Refusal;
use sheet::AcceptedSheet;

// The sheet of a list, accepted or refused: its verdict is the judge's on that list, or that on the text that the list was read from.
#[derive(Clone, Copy)]
pub struct JudgedSheet<'a> {
    pub sheet: Result<AcceptedSheet<'a>, Refusal>,
    pub list: &'a [u32],
    pub ghost judged: { ∥ Judged (verdict_in sheet) list.now ∥₁ },
    pub ghost same: { ∥ IfOk sheet (λ s. s.list.now ≡ list.now) ∥₁ },
}
