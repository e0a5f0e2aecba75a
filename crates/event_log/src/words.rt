//! The words of a log: what a line begins with, states, and how an attempt ended.

ghost use Rattle.std.specs.Prelude.{◌≡◌, true, All, map};
ghost use Rattle.flow_base.specs.TextBytes.{IsTextByte};
ghost use Rattle.script_tree.specs.BuiltIns as tables;
ghost use Rattle.event_log.specs.LogWords as words;

use crate::entry::BlockState;
use task_record::Status;

/// What a line tells, by its first word.
#[derive(Clone, Copy, PartialEq, Eq, Debug)]
pub enum Kind {
    Submit,
    Join,
    Memo,
    Launch,
    Dispatch,
    Start,
    Ended,
    Held,
    LostTry,
    Stored,
    Settled,
    Block,
    Register,
    Refused,
    Tick,
    Beat,
    Silent,
    Lost,
    Drain,
    Drained,
    Hold,
    Scale,
    Checkpoint,
    End,
}

/// The first word of a scaling decision.
#[derive(Clone, Copy, PartialEq, Eq, Debug)]
pub enum ScaleWord {
    Keep,
    Out,
    In,
}

const KINDS: [(&[u8], Kind); 24] = [
    (b"submit", Kind::Submit),
    (b"join", Kind::Join),
    (b"memo", Kind::Memo),
    (b"launch", Kind::Launch),
    (b"dispatch", Kind::Dispatch),
    (b"start", Kind::Start),
    (b"ended", Kind::Ended),
    (b"held", Kind::Held),
    (b"losttry", Kind::LostTry),
    (b"stored", Kind::Stored),
    (b"settled", Kind::Settled),
    (b"block", Kind::Block),
    (b"register", Kind::Register),
    (b"refused", Kind::Refused),
    (b"tick", Kind::Tick),
    (b"beat", Kind::Beat),
    (b"silent", Kind::Silent),
    (b"lost", Kind::Lost),
    (b"drain", Kind::Drain),
    (b"drained", Kind::Drained),
    (b"hold", Kind::Hold),
    (b"scale", Kind::Scale),
    (b"checkpoint", Kind::Checkpoint),
    (b"end", Kind::End),
];

const STATUSES: [(&[u8], Status); 11] = [
    (b"unsched", Status::Unsched),
    (b"pending", Status::Pending),
    (b"launched", Status::Launched),
    (b"running", Status::Running),
    (b"running_ended", Status::RunningEnded),
    (b"joining", Status::Joining),
    (b"exec_done", Status::ExecDone),
    (b"memo_done", Status::MemoDone),
    (b"failed", Status::Failed),
    (b"dep_fail", Status::DepFail),
    (b"fail_retryable", Status::FailRetryable),
];

const BLOCK_STATES: [(&[u8], BlockState); 3] = [
    (b"started", BlockState::Started),
    (b"failed", BlockState::Failed),
    (b"ended", BlockState::Ended),
];

const SCALE_WORDS: [(&[u8], ScaleWord); 3] = [
    (b"keep", ScaleWord::Keep),
    (b"out", ScaleWord::Out),
    (b"in", ScaleWord::In),
];

/// How an attempt can have ended: with a value, or an exception.
const END_WORDS: [&[u8]; 14] = [
    b"value",
    b"ZeroDivisionError",
    b"OverflowError",
    b"TypeError",
    b"IndexError",
    b"ValueError",
    b"SizeError",
    b"BudgetError",
    b"MissingOutputs",
    b"AppError",
    b"DependencyError",
    b"JoinError",
    b"DepthError",
    b"ManagerLost",
];

/// The keywords of scripts.
const KEYWORDS: [&[u8]; 22] = [
    b"app",
    b"cached",
    b"join",
    b"main",
    b"outputs",
    b"let",
    b"while",
    b"for",
    b"in",
    b"if",
    b"else",
    b"return",
    b"raise",
    b"write",
    b"print",
    b"checkpoint",
    b"call",
    b"to",
    b"and",
    b"or",
    b"not",
    b"nothing",
];

/// What stands beside this word in a table.
fn found_in<T: Copy>(table: &[(&[u8], T)], word: &[u8]) -> Option<T>
    ensures { result ≡ tables.lookup (map (λ e. (e.0.now, e.1)) table.now) word.now }
{
    for (key, value) in table {
        if *key == word {
            return Some(*value);
        }
    }
    None
}

/// Whether this is one of the words.
fn is_one_of(keys: &[&[u8]], word: &[u8]) -> bool
    ensures { result ≡ words.is_one_of (map (λ key. key.now) keys.now) word.now }
{
    for key in keys {
        if *key == word {
            return true;
        }
    }
    false
}

/// What a line with this first word tells.
pub fn kind_of(word: &[u8]) -> Option<Kind>
    ensures { result ≡ words.kind_of word.now }
{
    found_in(&KINDS, word)
}

/// The state of a task by its word.
pub fn status_of(word: &[u8]) -> Option<Status>
    ensures { result ≡ words.status_of word.now }
{
    found_in(&STATUSES, word)
}

/// The state of a block by its word.
pub fn block_state_of(word: &[u8]) -> Option<BlockState>
    ensures { result ≡ words.block_state_of word.now }
{
    found_in(&BLOCK_STATES, word)
}

/// The word of a state of a block.
pub fn block_word(state: BlockState) -> &'static str
    ensures { result.now ≡ words.block_word state }
{
    match state {
        BlockState::Started => "started",
        BlockState::Failed => "failed",
        BlockState::Ended => "ended",
    }
}

/// A decision by its first word.
pub fn scale_word_of(word: &[u8]) -> Option<ScaleWord>
    ensures { result ≡ words.scale_word_of word.now }
{
    found_in(&SCALE_WORDS, word)
}

/// Whether an attempt can have ended with this word.
#[tactic(auto, using(crate::proofs::Names::end_word_text))]
pub fn is_end_word(word: &[u8]) -> bool
    ensures value { result ≡ words.is_end_word word.now }
    ensures text { result ≡ true → All IsTextByte word.now }
{
    is_one_of(&END_WORDS, word)
}

/// Whether the word is a keyword of scripts.
pub fn is_keyword(word: &[u8]) -> bool
    ensures { result ≡ words.is_keyword word.now }
{
    is_one_of(&KEYWORDS, word)
}
