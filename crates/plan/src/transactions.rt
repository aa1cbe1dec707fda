// The transactions that are left of a plan: how many, and the words in which they stand; and the steps that are left of one.
ghost use Rattle.std.specs.Prelude.{◌≡◌, true};
ghost use Rattle.plan.specs.Admission.{well_formed};

#[derive(Clone, Copy)]
pub struct Transactions<'a> {
    pub left: u32,
    pub rest: &'a [u32],
    ghost formed: { well_formed left rest.now ≡ true },
}

#[derive(Clone, Copy)]
pub struct Steps<'a> {
    pub rest: &'a [u32],
}
