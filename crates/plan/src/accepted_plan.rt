// The words of a plan that the plan reader accepts, with the places of its transactions by their number: behind this type its questions
// are not put again.
ghost use Rattle.std.specs.Prelude.{◌≡◌};
ghost use Rattle.verdict.specs.Verdict.{accepted};
ghost use Rattle.plan.specs.Admission.{plan_verdict};
ghost use Rattle.plan.specs.Place.{transaction_places};

#[derive(Clone, Copy)]
pub struct Plan<'a> {
    pub words: &'a [u32],
    pub places: [usize; 32],
    ghost accepted: { plan_verdict words.now ≡ accepted },
    ghost placed: { places ≡ transaction_places words.now },
}
