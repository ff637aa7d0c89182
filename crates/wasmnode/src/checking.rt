ghost use Rattle.std.specs.Prelude.{◌≡◌, ◌≢◌, ◌≤◌, true, false, length, map, string_bytes, Ok, IfOk, IfErr};
ghost use Rattle.std.specs.Io.KnownBytes.{Appends};
ghost use Rattle.outside_io.specs.Cause.{Rose};
ghost use Rattle.outside_io.specs.Pieces.{AppendsFront};
ghost use Rattle.line_protocol.specs.Lines.{max_line};
ghost use Rattle.line_protocol.specs.Texts.{line_text, check_data};
ghost use Rattle.wasm_types.specs.Gate.{gate};
ghost use Rattle.wasmnode.specs.Checking.{unread, judged, checked, IsJudged, IsUnread, Checks, ChecksFront};
ghost use Rattle.wasmnode.specs.Answers.{IsAnswer, AnswersFirst};

use crate::options::Options;
use crate::status::Status;
use crate::stop::Stop;
use base64::DecodeAllocError;
use base64::engine::general_purpose::STANDARD;
use gatekeeper::{GateStop, check, refusal_text};
use line_protocol::{BadKind, LineStop, Lines, bad_text, check_text};
use outside_io::{Sink, Source, write_all};
use std::alloc::{AllocError, Global};

/// The answer to a line.
#[derive(Debug, Drop)]
pub struct Answer {
    pub text: Vec<u8>,
    /// Whether the line has a code. Else it is bad.
    pub judged: bool,
}

fn told(alloc: Global, judgement: &str) -> Result<Answer, AllocError>
    ensures text { IfOk result (λ answer. answer.text.items ≡ line_text (check_data judgement.now)) }
    ensures is_judged { IfOk result (λ answer. answer.judged ≡ true) }
{
    let text = check_text(alloc, judgement)?;
    Ok(Answer { text, judged: true })
}

fn refused(alloc: Global, kind: BadKind) -> Result<Answer, AllocError>
    ensures { IfOk result (λ answer. IsAnswer answer (unread kind)) }
{
    let text = bad_text(alloc, &kind, 1)?;
    Ok(Answer {
        text,
        judged: false,
    })
}

/// What the gate says of a code.
fn judge_code(alloc: Global, caps: &[String], code: Vec<u8>) -> Result<Answer, AllocError>
    ensures { IfOk result (λ answer. IsAnswer answer (judged (gate code.items (map string_bytes caps.now)))) }
{
    match check(alloc, code, caps) {
        Ok(_) => told(alloc, "Ok"),
        Err(GateStop::Refused(refusal)) => {
            let text = refusal_text(alloc, &refusal)?;
            told(alloc, text.as_str())
        }
        Err(GateStop::NoMemory) => Err(AllocError),
    }
}

/// What is said of a line that isn't too long.
fn judge_line(alloc: Global, caps: &[String], line: &[u8]) -> Result<Answer, AllocError>
    requires { length line.now ≤ max_line }
    ensures { IfOk result (λ answer. IsAnswer answer (checked (map string_bytes caps.now) line.now)) }
{
    match STANDARD.decode(alloc, line) {
        Ok(code) => judge_code(alloc, caps, code),
        Err(DecodeAllocError::DecodeError(_)) => refused(alloc, BadKind::Base64),
        Err(DecodeAllocError::OutOfMemory) => Err(AllocError),
    }
}

fn settled(answer: Result<Answer, AllocError>) -> Result<Answer, Stop>
    ensures ok { IfOk result (λ a. answer ≡ Ok a) }
    ensures err { IfErr result (λ stop. stop ≡ Stop.NoMemory) }
{
    match answer {
        Ok(answer) => Ok(answer),
        Err(_) => Err(Stop::NoMemory),
    }
}

/// The answer to the first line of the source.
fn answer_first<S: Source>(alloc: Global, caps: &[String], source: &mut S) -> Result<Answer, Stop>
    ensures answer { IfOk result (λ answer. AnswersFirst answer (map string_bytes caps.now) (S.left source.old)) }
    ensures cause { result ≡ Err Stop.ReadFault → Rose (S.faults source.old) (S.faults source.new) }
    ensures reads { S.faults source.old ≤ S.faults source.new }
{
    let mut lines = Lines::new(alloc)?;
    match lines.next(alloc, source) {
        Ok(Some(line)) => settled(judge_line(alloc, caps, &line.bytes)),
        Ok(None) => settled(judge_line(alloc, caps, b"")),
        Err(LineStop::Bad { .. }) => settled(refused(alloc, BadKind::Long)),
        Err(LineStop::ReadFault) => Err(Stop::ReadFault),
        Err(LineStop::NoMemory) => Err(Stop::NoMemory),
    }
}

/// Writes the answer.
fn put_answer<K: Sink>(sink: &mut K, answer: &Answer) -> Status
    ensures judged { result ≡ Status.Done → (answer.now.judged ≡ true)
        × Appends (K.written sink.old) (K.written sink.new) answer.now.text.items }
    ensures unread { result ≡ Status.BadLine → (answer.now.judged ≡ false)
        × Appends (K.written sink.old) (K.written sink.new) answer.now.text.items }
    ensures others { (result ≢ Status.Usage) × (result ≢ Status.ReadFault) }
    ensures cause { result ≡ Status.WriteFault → Rose (K.faults sink.old) (K.faults sink.new) }
    ensures front { AppendsFront (K.written sink.old) (K.written sink.new) answer.now.text.items }
    ensures writes { K.faults sink.old ≤ K.faults sink.new }
{
    match write_all(sink, &answer.text) {
        Ok(()) => {
            if answer.judged {
                Status::Done
            } else {
                Status::BadLine
            }
        }
        Err(_) => Status::WriteFault,
    }
}

/// Reads the first line, which has a code in base64, and writes whether a chain with the capabilities of
/// the options takes it, or else the first rule that it breaks. What stands after the line isn't looked
/// at.
pub fn check_line<S: Source, K: Sink>(
    alloc: Global,
    options: &Options,
    source: &mut S,
    sink: &mut K,
) -> Status
    ensures judged { result ≡ Status.Done → Checks (map string_bytes options.now.caps.items)
        (S.left source.old) (K.written sink.old) (K.written sink.new) IsJudged }
    ensures unread { result ≡ Status.BadLine → Checks (map string_bytes options.now.caps.items)
        (S.left source.old) (K.written sink.old) (K.written sink.new) IsUnread }
    ensures usage { result ≢ Status.Usage }
    ensures read_cause { result ≡ Status.ReadFault → Rose (S.faults source.old) (S.faults source.new) }
    ensures write_cause { result ≡ Status.WriteFault → Rose (K.faults sink.old) (K.faults sink.new) }
    ensures front { ChecksFront (map string_bytes options.now.caps.items) (S.left source.old)
        (K.written sink.old) (K.written sink.new) }
    ensures reads { S.faults source.old ≤ S.faults source.new }
    ensures writes { K.faults sink.old ≤ K.faults sink.new }
{
    match answer_first(alloc, &options.caps, source) {
        Ok(answer) => put_answer(sink, &answer),
        Err(Stop::ReadFault) => Status::ReadFault,
        Err(_) => Status::NoMemory,
    }
}
