// The first words of lines.

ghost use Rattle.std.specs.Prelude.{◌≡◌};
ghost use Rattle.cilk_trace.specs.Lines.{keyword_of};

/// The first word of a line.
#[derive(Clone, Copy)]
pub(crate) enum Keyword {
    Read,
    Write,
    Enter,
    Spawned,
    Called,
    Sync,
    Clear,
    Create,
    Update,
    Value,
    Retire,
    Unseen,
    End,
}

/// Returns the keyword with this spelling.
#[tactic(auto, unfolding(crate::specs::Lines::keyword_of))]
pub(crate) fn keyword_in(word: &[u8]) -> Option<Keyword>
    ensures { result ≡ keyword_of word.now }
{
    if word == b"read".as_slice() {
        return Some(Keyword::Read);
    }
    if word == b"write".as_slice() {
        return Some(Keyword::Write);
    }
    if word == b"enter".as_slice() {
        return Some(Keyword::Enter);
    }
    if word == b"spawned".as_slice() {
        return Some(Keyword::Spawned);
    }
    if word == b"called".as_slice() {
        return Some(Keyword::Called);
    }
    if word == b"sync".as_slice() {
        return Some(Keyword::Sync);
    }
    if word == b"clear".as_slice() {
        return Some(Keyword::Clear);
    }
    if word == b"create".as_slice() {
        return Some(Keyword::Create);
    }
    if word == b"update".as_slice() {
        return Some(Keyword::Update);
    }
    if word == b"value".as_slice() {
        return Some(Keyword::Value);
    }
    if word == b"retire".as_slice() {
        return Some(Keyword::Retire);
    }
    if word == b"unseen".as_slice() {
        return Some(Keyword::Unseen);
    }
    if word == b"end".as_slice() {
        return Some(Keyword::End);
    }
    None
}
