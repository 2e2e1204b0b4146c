// The columns of Table 1, lent to the answers.
ghost use Rattle.console.specs.Answers.{Columns};

// The columns of Table 1 that answers read beside the sheet's: H, psi and Cp. A program builds them once.
#[derive(Clone, Copy)]
pub struct Table<'a> {
    pub heats: &'a [u32; rows::ROWS],
    pub psis: &'a [u32; rows::ROWS],
    pub cps: &'a [u32; rows::ROWS],
    pub ghost columns: { Columns heats.now psis.now cps.now },
}
