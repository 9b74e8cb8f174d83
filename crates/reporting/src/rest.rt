use texts::Text;

/// What is left of a run when its words, and the file that they name, are read.
#[derive(Drop)]
pub enum Rest<W> {
    /// This is to be done with the input.
    Work(W),
    /// The text answers: the input is not asked for.
    Answer(Text),
}
