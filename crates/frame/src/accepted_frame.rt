// The words of a frame that questions 10 to 12 accept, under a plan with so many desks.
ghost use Rattle.std.specs.Prelude.{◌≡◌};
ghost use Rattle.verdict.specs.Verdict.{accepted};
ghost use Rattle.frame.specs.Admission.{frame_verdict};

#[derive(Clone, Copy)]
pub struct Frame<'a> {
    pub words: &'a [u32],
    pub desks: u32,
    ghost accepted: { frame_verdict desks words.now ≡ accepted },
}
