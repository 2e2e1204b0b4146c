// The lists that a caller lends for a walk, under one name on the way through its steps.

// The three lent lists: each step's temperature, its rest, and its eleven places of looks.
#[derive(Drop)]
pub(crate) struct Lent<'a> {
    pub temperatures: &'a mut [i64],
    pub rests: &'a mut [i64],
    pub looks: &'a mut [u32],
}
