// The questions that can be asked many times over.
ghost use Rattle.std.specs.Prelude.{◌≡◌};
ghost use Rattle.benchmark.specs.Answer.{question_of};

// What an argument is: a place, a sequence number, a wall time, a place among the entries that hold a payload, the offset of the
// entry whose item is asked for, a place among a field's values, or the offset of the entry whose stamps are.
#[derive(Clone, Copy)]
pub enum Question {
    Entry,
    Seqnum,
    Realtime,
    Payload,
    Item,
    Value,
    Stamps,
}

// The question of a number.
pub fn asked_by(kind: u64) -> Question
    ensures { result ≡ question_of kind }
{
    match kind {
        0 => Question::Entry,
        1 => Question::Seqnum,
        2 => Question::Realtime,
        3 => Question::Payload,
        4 => Question::Item,
        5 => Question::Value,
        _ => Question::Stamps,
    }
}
