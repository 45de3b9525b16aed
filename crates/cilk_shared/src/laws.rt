//! Laws of the shared words. Each law is a function that does nothing: its contract is the law.

ghost use Rattle.cilk_shared.specs.Laws.{UntakenIsOpen, WordsTellWhatIsDone};

/// The word of a continuation that was offered and not yet resumed is 1. At that word
/// [`crate::yard::Yard::take`] answers [`crate::taken::Taken::Yes`].
pub fn untaken_is_open()
    ensures { UntakenIsOpen }
{}

/// At each moment the shared words tell which steps on words are done. No step is done by two
/// seats, and each step before a done one is done. A cell's word is that of its last done write in
/// serial order, or of its opening value. The word of a continuation is 0 until its spawn is done,
/// then 1, and 2 once its `resume` is done. The word of the run's end is 1 once the root's `end` is
/// done.
pub fn words_tell_what_is_done()
    ensures { WordsTellWhatIsDone }
{}
