// A well-formed transaction: its word, and the words of its steps.
ghost use Rattle.plan.specs.Form.{IsTransaction};

#[derive(Clone, Copy)]
pub struct Transaction<'a> {
    pub word: u32,
    pub step_words: &'a [u32],
    ghost formed: { IsTransaction word step_words.now },
}
