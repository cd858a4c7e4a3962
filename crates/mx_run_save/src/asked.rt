//! What is asked of each URL.
ghost use Rattle.std.specs.Prelude.{◌≡◌, ◌≢◌, ◌⊎◌, IfErr, IfOk, None, Some, map, option_map, string_bytes};
ghost use Rattle.mx_types.specs.Settings.{field_of};
ghost use Rattle.mx_request.specs.Request.{refusal_of};
ghost use Rattle.mx_run_save.specs.Asked.{IsAskedBy, IsBodyFile, IsBodyOf, IsOneTooMany, IsRefusedAlways, field_given, option_name, refused_option, settings_given};

use crate::status::{OUT_OF_MEMORY, REFUSED, UNREAD};
use crate::unbegun::tell_out_of_memory;
use crate::unread::read_file;
use mx_command::{BodySource, Header, Save};
use mx_request::RequestError;
use mx_save_book::Asking;
use mx_types::{OutOfMemory, Settings};
use std::alloc::{AllocError, AllocGlobal, Global};
use std::rt::Files;

/// A URL of which a request is built to see whether one may have what is asked for.
const ANY_URL: &str = "http://localhost/";

fn copy_text(alloc: Global, text: Option<&str>) -> Result<Option<String>, AllocError>
    ensures { IfOk result (λ copy. option_map string_bytes copy ≡ option_map (λ t. t.now) text.entry) }
{
    match text {
        Some(text) => Ok(Some(String::from_str(alloc, text)?)),
        None => Ok(None),
    }
}

fn copy_headers(alloc: Global, headers: &[Header<'_>]) -> Result<Vec<(String, String)>, AllocError>
    ensures { IfOk result (λ fields. map field_of fields.items ≡ map field_given headers.now) }
{
    let mut fields = Vec::new(alloc);
    for header in headers {
        let name = String::from_str(alloc, header.name)?;
        let value = String::from_str(alloc, header.value)?;
        fields.push((name, value))?;
    }
    Ok(fields)
}

// The settings of each request, with that body.
fn settings_of(
    alloc: Global,
    save: &Save<'_>,
    body: Option<Vec<u8>>,
) -> Result<Settings, AllocError>
    ensures { IfOk result (λ settings. settings ≡ settings_given save.now (option_map (λ bytes. bytes.items) body)) }
{
    let user_agent = copy_text(alloc, save.user_agent)?;
    let fields = copy_headers(alloc, save.headers.as_slice())?;
    Ok(Settings {
        user_agent,
        fields,
        body,
        timeout_ms: save.numbers.options.timeout_ms,
        max_redirects: save.numbers.options.max_redirects,
    })
}

// rule save-settings
// Why no request may have what is asked for, if none may: that of a request of whatever URL.
fn refusal(alloc: Global, asking: &Asking) -> Result<Option<RequestError>, OutOfMemory>
    ensures { IfOk result (λ why. why ≡ refusal_of asking.now.settings) }
{
    match asking.request(alloc, ANY_URL) {
        Ok(_) => Ok(None),
        Err(RequestError::BadField) => Ok(Some(RequestError::BadField)),
        Err(RequestError::BodyTooLarge) => Ok(Some(RequestError::BodyTooLarge)),
        Err(_) => Err(OutOfMemory),
    }
}

// The option that gave what is refused, by why all that is asked for is, and why it is without the user agent.
fn option_name(why: RequestError, without_agent: Option<RequestError>) -> &'static str
    ensures { result.now ≡ option_name why without_agent }
{
    match why {
        RequestError::BodyTooLarge => "--data",
        _ => match without_agent {
            Some(RequestError::BadField) => "-H",
            _ => "--user-agent",
        },
    }
}

fn drop_agent(asking: &mut Asking)
    ensures { asking.new.settings ≡ record asking.old.settings { user_agent = None } }
{
    asking.settings.user_agent = None;
}

// The option that gave what no request may have. The user agent is then gone.
fn option_of(
    alloc: Global,
    asking: &mut Asking,
    why: RequestError,
) -> Result<&'static str, OutOfMemory>
    requires refused { refusal_of asking.old.settings ≡ Some why }
    ensures { IfOk result (λ option. refused_option asking.old.settings ≡ Some option.now) }
{
    drop_agent(asking);
    let without_agent = refusal(alloc, &*asking)?;
    Ok(option_name(why, without_agent))
}

// Tells of what no request may have, with the option that gave it. The answer is the exit status.
fn refuse<R: AllocGlobal + Eprint>(rt: &R, asking: &mut Asking, why: RequestError) -> u8
    requires refused { refusal_of asking.old.settings ≡ Some why }
    ensures { (result ≡ REFUSED) ⊎ (result ≡ OUT_OF_MEMORY) }
{
    match option_of(rt.alloc(), asking, why) {
        Ok(option) => {
            let _ = eprintln!(rt; "mxfetch: {option}: {why}");
            REFUSED
        }
        Err(OutOfMemory) => tell_out_of_memory(rt),
    }
}

// rule save-settings
// What is asked of each URL, if a request may have it, or the exit status where none may, which is told.
fn allowed<R: AllocGlobal + Eprint>(rt: &R, asking: Asking) -> Result<Asking, u8>
    ensures same { IfOk result (λ same. same ≡ asking) }
    ensures allowed { IfOk result (λ same. refusal_of asking.settings ≡ None) }
    ensures status { IfErr result (λ status. (status ≡ REFUSED) ⊎ (status ≡ OUT_OF_MEMORY)) }
    ensures refused { IfErr result (λ status. status ≡ REFUSED → refusal_of asking.settings ≢ None) }
{
    let mut asking = asking;
    match refusal(rt.alloc(), &asking) {
        Ok(None) => Ok(asking),
        Ok(Some(why)) => Err(refuse(rt, &mut asking, why)),
        Err(OutOfMemory) => Err(tell_out_of_memory(rt)),
    }
}

// rule save-settings
// How many bytes of a file are read at most: one more than a body may have.
fn most_read() -> u64
    ensures { IsOneTooMany result }
{
    1_048_577
}

// The body of each request; or the exit status where it can't be read, which is reported.
fn body_of<R: Files + AllocGlobal + Eprint>(
    rt: &R,
    body: Option<BodySource<'_>>,
) -> Result<Option<Vec<u8>>, u8>
    ensures body { IfOk result (λ bytes. IsBodyOf body.entry (option_map (λ b. b.items) bytes)) }
    ensures status { IfErr result (λ status. (status ≡ UNREAD) ⊎ (status ≡ OUT_OF_MEMORY)) }
    ensures unread { IfErr result (λ status. status ≡ UNREAD → IsBodyFile body.entry) }
{
    match body {
        None => Ok(None),
        Some(BodySource::File(path)) => Ok(Some(read_file(rt, path, most_read())?)),
        Some(BodySource::Text(text)) => match Vec::from_slice(rt.alloc(), text.as_bytes()) {
            Ok(bytes) => Ok(Some(bytes)),
            Err(_) => Err(tell_out_of_memory(rt)),
        },
    }
}

/// What is asked of each URL, or the exit status where it can't be had, or where no request may have it, which is told.
pub fn asking_of<R: Files + AllocGlobal + Eprint>(rt: &R, save: &Save<'_>) -> Result<Asking, u8>
    ensures asked { IfOk result (IsAskedBy save.now) }
    ensures status { IfErr result (λ status. (status ≡ UNREAD) ⊎ ((status ≡ REFUSED) ⊎ (status ≡ OUT_OF_MEMORY))) }
    ensures unread { IfErr result (λ status. status ≡ UNREAD → IsBodyFile save.now.body) }
    ensures refused { IfErr result (λ status. status ≡ REFUSED → IsRefusedAlways save.now) }
{
    let body = body_of(rt, save.body)?;
    match settings_of(rt.alloc(), save, body) {
        Ok(settings) => allowed(
            rt,
            Asking {
                method: save.method,
                settings,
                retries: save.numbers.retries,
                most_bytes: save.numbers.most_bytes,
                skip_existing: save.flags.skip_existing,
                content_on_error: save.flags.content_on_error,
            },
        ),
        Err(_) => Err(tell_out_of_memory(rt)),
    }
}
