//! The object of a URL, in JSON.
ghost use Rattle.std.specs.Prelude.{◌≡◌, ◌++◌, ◌∷◌, [], true, ◌↔◌, IsErr, IfErr, IfOk, OnOk, string_bytes, option_map};
ghost use Rattle.json.specs.Print.{quoted};
ghost use Rattle.mx_run_io.specs.Ends.{has_failed_write, Wrote};
ghost use Rattle.mx_save_rules.specs.Words.{verdict_word};
ghost use Rattle.mx_save_rules.specs.Codes.{save_number};
ghost use Rattle.mx_save_rules.specs.Texts.{shown, json_text, framing_text, object_front, object_back, json_line};

use crate::end::{End, FramingWord};
use crate::line::shown;
use mx_run_io::{Output, WriteFailed};
use serde_json::Value;
use std::alloc::{AllocError, Global};
use std::io::Write;

/// Why the object of a URL isn't printed.
#[derive(Clone, Copy)]
pub enum JsonError {
    /// Memory for its texts was refused, and nothing was written.
    OutOfMemory,
    /// A write failed.
    Unwritten,
}

/// The texts in JSON of strings, or `null`.
#[derive(Drop)]
struct JsonTexts {
    url: String,
    file: String,
    error: String,
}

fn quoted(alloc: Global, text: String) -> Result<String, AllocError>
    ensures { IfOk result (λ json. string_bytes json ≡ quoted (string_bytes text)) }
{
    Value::String(text).to_string(alloc)
}

fn quoted_shown(alloc: Global, bytes: &[u8]) -> Result<String, AllocError>
    ensures { IfOk result (λ json. string_bytes json ≡ quoted (shown bytes.now)) }
{
    let mut text = String::new(alloc);
    shown(bytes).append_to(&mut text)?;
    quoted(alloc, text)
}

fn file_text(alloc: Global, file: &Option<String>) -> Result<String, AllocError>
    ensures { IfOk result (λ json. string_bytes json ≡ json_text (option_map (λ name. shown (string_bytes name)) file.now)) }
{
    match file {
        Some(name) => quoted_shown(alloc, name.as_bytes()),
        None => String::from_str(alloc, "null"),
    }
}

fn error_text(alloc: Global, error: &Option<String>) -> Result<String, AllocError>
    ensures { IfOk result (λ json. string_bytes json ≡ json_text (option_map string_bytes error.now)) }
{
    match error {
        Some(words) => quoted(alloc, String::from_str(alloc, words.as_str())?),
        None => String::from_str(alloc, "null"),
    }
}

fn framing_text(framing: Option<FramingWord>) -> &'static str
    ensures { result.now ≡ framing_text framing }
{
    match framing {
        Some(FramingWord::Length) => "\"length\"",
        Some(FramingWord::Chunked) => "\"chunked\"",
        Some(FramingWord::Close) => "\"close\"",
        None => "null",
    }
}

fn texts_of(alloc: Global, end: &End) -> Result<JsonTexts, AllocError>
    ensures url { IfOk result (λ texts. string_bytes texts.url ≡ quoted (shown end.now.url)) }
    ensures file { IfOk result (λ texts. string_bytes texts.file ≡ json_text (option_map shown end.now.file)) }
    ensures error { IfOk result (λ texts. string_bytes texts.error ≡ json_text end.now.error) }
{
    Ok(JsonTexts {
        url: quoted_shown(alloc, &end.url)?,
        file: file_text(alloc, &end.file)?,
        error: error_text(alloc, &end.error)?,
    })
}

// Prints what comes before the name of the file.
fn print_front<W: Write>(
    output: &mut Output<W>,
    texts: &JsonTexts,
    end: &End,
) -> Result<(), WriteFailed>
    ensures bytes { OnOk result (Wrote W.contents output.old output.new
        (object_front (string_bytes texts.now.url) (verdict_word end.now.verdict) (save_number end.now.code) end.now.status end.now.length)) }
    ensures failed { IsErr result ↔ (has_failed_write output.new ≡ true) }
{
    let url = texts.url.as_str();
    let verdict = end.verdict.as_str();
    let code = end.code.number();
    let status = end.transferred.status;
    let length = end.transferred.length;
    output.print(format_args!(
        "{{\"url\":{url},\"verdict\":\"{verdict}\",\"code\":{code},\"status\":{status},\"length\":{length},\"file\":"
    ))
}

// Prints the name of the file, and what comes after it.
fn print_back<W: Write>(
    output: &mut Output<W>,
    texts: &JsonTexts,
    end: &End,
) -> Result<(), WriteFailed>
    ensures bytes { OnOk result (Wrote W.contents output.old output.new
        (object_back (string_bytes texts.now.file) end.now.hops end.now.tries (framing_text end.now.framing) (string_bytes texts.now.error))) }
    ensures failed { IsErr result ↔ (has_failed_write output.new ≡ true) }
{
    let file = texts.file.as_str();
    let hops = end.transferred.hops;
    let tries = end.transferred.tries;
    let framing = framing_text(end.transferred.framing);
    let error = texts.error.as_str();
    output.print(format_args!(
        "{file},\"hops\":{hops},\"tries\":{tries},\"framing\":{framing},\"error\":{error}}}\n"
    ))
}

// rule save-lines
// Prints the object.
// It is put together of values that `serde_json` writes: an object of its own has its keys in alphabetical order.
fn print_object<W: Write>(
    output: &mut Output<W>,
    texts: &JsonTexts,
    end: &End,
) -> Result<(), WriteFailed>
    requires url { string_bytes texts.now.url ≡ quoted (shown end.now.url) }
    requires file { string_bytes texts.now.file ≡ json_text (option_map shown end.now.file) }
    requires error { string_bytes texts.now.error ≡ json_text end.now.error }
    ensures bytes { OnOk result (Wrote W.contents output.old output.new (json_line end.now)) }
    ensures failed { IsErr result ↔ (has_failed_write output.new ≡ true) }
{
    print_front(output, texts, end)?;
    print_back(output, texts, end)
}

/// Prints what a URL ended with as a JSON object (RFC 8259) on a line of its own: url, verdict, code, status, length, file, hops, tries,
/// framing and error, in this order. The URL and the name of the file are escaped as in a line; file, framing and error are `null` where
/// there is none.
///
/// An error is a write that failed; or memory for its texts was refused, and then nothing was written. It isn't flushed.
pub fn print_json<W: Write>(
    alloc: Global,
    output: &mut Output<W>,
    end: &End,
) -> Result<(), JsonError>
    ensures bytes { OnOk result (Wrote W.contents output.old output.new (json_line end.now)) }
    ensures unwritten { IfErr result (λ error. error ≡ JsonError.Unwritten → has_failed_write output.new ≡ true) }
    ensures memory { IfErr result (λ error. error ≡ JsonError.OutOfMemory → output.new ≡ output.old) }
{
    let Ok(texts) = texts_of(alloc, end) else {
        return Err(JsonError::OutOfMemory);
    };
    match print_object(output, &texts, end) {
        Ok(()) => Ok(()),
        Err(_) => Err(JsonError::Unwritten),
    }
}
