// Table 1 of R. & M. 3099: H, Cp, psi and H15 of dry air for each whole kelvin from 200 to 2,000, mended as docs/AIR-TABLE.md lists.
// Each column is a constant tied to its list in specs/Rows.antt and handed out by value, to be named once and lent down.
// The rules of every row (document 01, "The air table") are computed once over the lists, and proofs/TableLaws.antt carries them to each kelvin.
#![tactic(auto)]

pub mod columns;

ghost use Rattle.std.specs.Prelude.{◌≡◌, ◌≤◌, ◌<◌};
ghost use Rattle.rows.specs.Limits.{first_kelvin, last_kelvin};
ghost use Rattle.rows.specs.Table.{column};

// the first and the last whole kelvin, and the rows from one to the other
pub const FIRST_KELVIN: u64 = 200;

pub const LAST_KELVIN: u64 = 2000;

pub const ROWS: usize = (LAST_KELVIN - FIRST_KELVIN + 1) as usize;

// The figure of a whole kelvin in any column.
// stays: a kelvin is a number with two bounds in clauses here and above, and no type, which would be no plainer: it is worked with as a number, and each k + 1 would be proved anew.
#[tactic(auto, using(crate::proofs::TableLaws::column_in))]
pub fn figure(rows: &[u32; ROWS], kelvin: u64) -> u64
    requires { (first_kelvin ≤ kelvin) × (kelvin ≤ last_kelvin) }
    ensures { (result ≡ column rows.now kelvin) × (result < 4294967296) }
{
    u64::from(rows[(kelvin - FIRST_KELVIN) as usize])
}
