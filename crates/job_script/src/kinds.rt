ghost use Rattle.std.specs.Prelude.{◌≡◌};
ghost use Rattle.job_script.specs.Kinds as table;
ghost use Rattle.job_script.specs.Script as script;

use crate::draft::Group;
use crate::head::{HeadWord, head_word};
use job_model::Op;
use s3_types::{Fate, Mode};

#[derive(Clone, Copy)]
pub enum EventWord {
    Do,
    Start,
    Step,
    Run,
    Kill,
    Mix,
    Restart,
    Recover,
}

/// The kinds of lines.
#[derive(Clone, Copy)]
pub enum Kind {
    Head(HeadWord),
    Loss,
    Attempt,
    File,
    Event(EventWord),
}

pub fn event_word(word: &str) -> Option<EventWord>
    ensures { result ≡ table.named table.event_words word.now }
{
    match word {
        "do" => Some(EventWord::Do),
        "start" => Some(EventWord::Start),
        "step" => Some(EventWord::Step),
        "run" => Some(EventWord::Run),
        "kill" => Some(EventWord::Kill),
        "mix" => Some(EventWord::Mix),
        "restart" => Some(EventWord::Restart),
        "recover" => Some(EventWord::Recover),
        _ => None,
    }
}

/// The kind of a line that begins with this word, or none.
pub fn kind_of(word: &str) -> Option<Kind>
    ensures { result ≡ script.kind_of word.now }
{
    if let Some(head) = head_word(word) {
        return Some(Kind::Head(head));
    }
    match word {
        "loss" => Some(Kind::Loss),
        "attempt" => Some(Kind::Attempt),
        "file" => Some(Kind::File),
        _ => match event_word(word) {
            Some(event) => Some(Kind::Event(event)),
            None => None,
        },
    }
}

/// The conflict mode with this name, or none.
pub fn mode_of(word: &str) -> Option<Mode>
    ensures { result ≡ table.named table.modes word.now }
{
    match word {
        "fail" => Some(Mode::Fail),
        "append" => Some(Mode::Append),
        "replace" => Some(Mode::Replace),
        _ => None,
    }
}

/// True for `yes`, false for `no`, and none for any other word.
pub fn answer_of(word: &str) -> Option<bool>
    ensures { result ≡ table.named table.answers word.now }
{
    match word {
        "yes" => Some(true),
        "no" => Some(false),
        _ => None,
    }
}

/// The fate with this name, or none.
pub fn fate_of(word: &str) -> Option<Fate>
    ensures { result ≡ table.named table.fates word.now }
{
    match word {
        "slow" => Some(Fate::Slow),
        "before" => Some(Fate::Before),
        "after" => Some(Fate::After),
        _ => None,
    }
}

/// The driver's operation with this name, or none.
pub fn driver_op(word: &str) -> Option<Op>
    ensures { result ≡ table.named table.driver_ops word.now }
{
    match word {
        "setup" => Some(Op::Setup),
        "commit" => Some(Op::Commit),
        "abort" => Some(Op::Abort),
        "clean" => Some(Op::Clean),
        _ => None,
    }
}

/// An attempt's operation with this name, or none.
pub fn attempt_op(word: &str) -> Option<Op>
    ensures { result ≡ table.named table.attempt_ops word.now }
{
    match word {
        "write" => Some(Op::Write),
        "commit" => Some(Op::Commit),
        "abort" => Some(Op::Abort),
        _ => None,
    }
}

/// The group after a line of this kind, or none if the line is not allowed in this group.
pub fn enters(kind: Kind, group: Group) -> Option<Group>
    ensures { result ≡ script.enters kind group }
{
    match (kind, group) {
        (Kind::Head(_) | Kind::Loss, Group::Head) => Some(Group::Head),
        (Kind::Attempt, Group::Head | Group::Attempts) => Some(Group::Attempts),
        (Kind::File, Group::Attempts) => Some(Group::Attempts),
        (Kind::Event(_), _) => Some(Group::Events),
        _ => None,
    }
}
