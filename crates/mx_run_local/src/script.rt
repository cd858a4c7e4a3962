//! The lines of a script: what each is.
ghost use Rattle.std.specs.Prelude.{◌≡◌, ◌==◌, ◌≤◌, nat_le, if◌then◌else◌, Some, None, length, ◌∷◌, []};
ghost use Rattle.std.specs.List.{position, list_all};
ghost use Rattle.std.specs.Char.{is_ascii_digit};
ghost use Rattle.std.specs.Option.{option_copied};
ghost use Rattle.mx_run_local.specs.Script.{IsNameOf, IsCodeOf, named, coded, value_of, is_numeral, is_silent, number_of, plain_call, handle_call, end_call, call_with, call_of, words_of, words_behind, retire_or_bad, line_of, most_line};

use mx_types::{Call, Code, HandleId, Ticket};
use std::str;

/// What a line of a script is.
pub enum Line {
    /// An empty line or a comment.
    Silent,
    Call(Call),
    /// Old history is to be retired.
    Retire,
    Bad,
}

/// The first word of a line.
#[derive(Clone, Copy)]
enum Name {
    Add,
    Remove,
    Pause,
    Unpause,
    Read,
    Wakeup,
    Poll,
    Done,
    Handles,
    Running,
    State,
}

fn name_of(word: &str) -> Option<Name>
    ensures { IsNameOf word.now result }
{
    match word {
        "add" => Some(Name::Add),
        "remove" => Some(Name::Remove),
        "pause" => Some(Name::Pause),
        "unpause" => Some(Name::Unpause),
        "read" => Some(Name::Read),
        "wakeup" => Some(Name::Wakeup),
        "poll" => Some(Name::Poll),
        "done" => Some(Name::Done),
        "handles" => Some(Name::Handles),
        "running" => Some(Name::Running),
        "state" => Some(Name::State),
        _ => None,
    }
}

/// The name of a word.
fn named(word: &[u8]) -> Option<Name>
    ensures { result ≡ named word.now }
{
    match str::from_utf8(word) {
        Ok(text) => name_of(text),
        Err(_) => None,
    }
}

/// The code of a number.
fn coded(number: u32) -> Option<Code>
    ensures { result ≡ coded number }
{
    code_of(number)
}

fn code_of(number: u32) -> Option<Code>
    ensures { IsCodeOf number result }
{
    match number {
        0 => Some(Code::Ok),
        1 => Some(Code::UnsupportedProtocol),
        3 => Some(Code::UrlMalformat),
        6 => Some(Code::CouldntResolveHost),
        7 => Some(Code::CouldntConnect),
        8 => Some(Code::WeirdServerReply),
        18 => Some(Code::PartialFile),
        27 => Some(Code::OutOfMemory),
        28 => Some(Code::OperationTimedout),
        47 => Some(Code::TooManyRedirects),
        52 => Some(Code::GotNothing),
        55 => Some(Code::SendError),
        56 => Some(Code::RecvError),
        61 => Some(Code::BadContentEncoding),
        63 => Some(Code::FilesizeExceeded),
        100 => Some(Code::TooLarge),
        _ => None,
    }
}

/// The call of a name alone.
fn plain_call(name: Name) -> Option<Call>
    ensures { result ≡ plain_call name }
{
    match name {
        Name::Read => Some(Call::InfoRead),
        Name::Wakeup => Some(Call::Wakeup),
        Name::Poll => Some(Call::Poll),
        Name::Handles => Some(Call::Handles),
        Name::Running => Some(Call::Running),
        _ => None,
    }
}

/// The call of a name and a handle.
fn handle_call(name: Name, handle: HandleId) -> Option<Call>
    ensures { result ≡ handle_call name handle }
{
    match name {
        Name::Add => Some(Call::Add(handle)),
        Name::Remove => Some(Call::Remove(handle)),
        Name::Pause => Some(Call::Pause(handle)),
        Name::Unpause => Some(Call::Unpause(handle)),
        Name::State => Some(Call::State(handle)),
        _ => None,
    }
}

/// The call of a name, a ticket, a code and a length.
fn end_call(name: Name, ticket: Ticket, code: Code, size: u32) -> Option<Call>
    ensures { result ≡ end_call name ticket code size }
{
    match name {
        Name::Done => Some(Call::Finish(ticket, code, size)),
        _ => None,
    }
}

/// The number that at most ten digits write, where it is small enough.
fn value_of(digits: &[u8]) -> Option<u32>
    ensures { result ≡ (if nat_le (value_of digits.now) 4294967295 then Some (value_of digits.now) else None) }
{
    let mut value: u64 = 0;
    for digit in digits {
        if value > 4_294_967_295 {
            return None;
        }
        value = value * 10 + digit.saturating_sub(b'0') as u64;
    }
    u32::try_from(value).ok()
}

fn all_digits(word: &[u8]) -> bool
    ensures { result ≡ list_all is_ascii_digit word.now }
{
    word.iter().all(|byte| byte.is_ascii_digit())
}

/// Whether a word is 1 to 10 decimal digits.
fn is_numeral(word: &[u8]) -> bool
    ensures { result ≡ is_numeral word.now }
{
    !word.is_empty() && word.len() <= 10 && all_digits(word)
}

// rule play-lines
/// A number: 1 to 10 decimal digits of at most 4294967295.
fn number_of(word: &[u8]) -> Option<u32>
    ensures { result ≡ number_of word.now }
{
    if !is_numeral(word) {
        return None;
    }
    value_of(word)
}

/// The index of the first space.
fn space_at(text: &[u8]) -> Option<usize>
    ensures { result ≡ position (λ byte. byte == 32) text.now }
{
    text.iter().position(|byte| *byte == b' ')
}

/// The text up to the first space, and what follows it.
fn first_word(text: &[u8]) -> (&[u8], Option<&[u8]>)
    ensures { words_of text.now ≡ result.0.now ∷ words_behind (option_copied result.1) }
{
    match space_at(text) {
        None => (text, None),
        Some(at) => (&text[..at], Some(&text[at + 1..])),
    }
}

/// The call of a name with a ticket, a code and a length.
fn call_of_end(name: Name, ticket: &[u8], code: &[u8], size: &[u8]) -> Option<Call>
    ensures { result ≡ call_with (ticket.now ∷ code.now ∷ size.now ∷ []) name }
{
    let ticket = Ticket(number_of(ticket)?);
    let code = coded(number_of(code)?)?;
    end_call(name, ticket, code, number_of(size)?)
}

/// The call of a name with a handle.
fn call_of_handle(name: Name, handle: &[u8]) -> Option<Call>
    ensures { result ≡ call_with (handle.now ∷ []) name }
{
    handle_call(name, HandleId(number_of(handle)?))
}

/// The call of a name and the words after it.
fn call_with(name: Name, words: Option<&[u8]>) -> Option<Call>
    ensures { result ≡ call_with (words_behind (option_copied words.entry)) name }
{
    let Some(words) = words else {
        return plain_call(name);
    };
    let (first, words) = first_word(words);
    let Some(words) = words else {
        return call_of_handle(name, first);
    };
    let (second, words) = first_word(words);
    let (third, words) = first_word(words?);
    match words {
        None => call_of_end(name, first, second, third),
        Some(_) => None,
    }
}

/// The call of a line: words with one space between them.
fn call_of(line: &[u8]) -> Option<Call>
    ensures { result ≡ call_of (words_of line.now) }
{
    let (name, words) = first_word(line);
    call_with(named(name)?, words)
}

fn is_silent(line: &[u8]) -> bool
    ensures { result ≡ is_silent line.now }
{
    line.is_empty() || line[0] == b'#'
}

/// What a line is that is no call.
fn retire_or_bad(line: &[u8]) -> Line
    ensures { result ≡ retire_or_bad line.now }
{
    if line == b"retire".as_slice() {
        return Line::Retire;
    }
    Line::Bad
}

// rule play-lines
/// What a line of at most 64 bytes is.
pub fn read_line(line: &[u8]) -> Line
    requires { length line.now ≤ most_line }
    ensures { result ≡ line_of line.now }
{
    if is_silent(line) {
        return Line::Silent;
    }
    match call_of(line) {
        Some(call) => Line::Call(call),
        None => retire_or_bad(line),
    }
}
