//! What a URL ended with.
ghost use Rattle.std.specs.Prelude.{◌≡◌, ◌≢◌, string_bytes, codes, option_map, Some, None};
ghost use Rattle.mx_save_rules.specs.Codes.{save_number};
ghost use Rattle.mx_save_rules.specs.Words.{verdict_word};
ghost use Rattle.mx_save_rules.specs.Ends.{IsEnd, saved_end, done_end, skipped_end, failed_end};

use crate::code::SaveCode;
use mx_types::Code;
use std::marker::Model;

/// What became of a URL.
#[derive(Clone, Copy)]
pub enum Verdict {
    /// Its body is in its file.
    Saved,
    /// The response is whole, and there is nothing to save.
    Done,
    /// Its file was there, and it wasn't asked for.
    Skipped,
    /// It failed, and no file was changed.
    Failed,
}

impl Verdict {
    /// The word that is printed.
    pub fn as_str(self) -> &'static str
        ensures { result.now ≡ verdict_word self }
    {
        match self {
            Verdict::Saved => "saved",
            Verdict::Done => "done",
            Verdict::Skipped => "skipped",
            Verdict::Failed => "failed",
        }
    }
}

/// How the end of a body was found (RFC 9112, section 6.3), as far as it is reported.
#[derive(Clone, Copy)]
pub enum FramingWord {
    /// By its length.
    Length,
    /// By its last chunk.
    Chunked,
    /// By the end of the connection, so it can't be distinguished from a truncated body.
    Close,
}

/// What is reported of the transfers of a URL: of the last response its status (0 where none was read), the length of its body in bytes and
/// its framing; how many hops the last transfer had; and how many tries were made.
#[derive(Clone, Copy)]
pub struct Transferred {
    pub status: u16,
    pub length: u64,
    pub framing: Option<FramingWord>,
    pub hops: u32,
    pub tries: u32,
}

/// What a URL ended with. Contracts see it as a record of what is reported of it: a failed one has a code that isn't 0, and no other has; a
/// file is named where one was saved or skipped, and nowhere else; a failed or skipped one has the length 0.
#[derive(Drop)]
pub struct End {
    pub(crate) url: Vec<u8>,
    pub(crate) verdict: Verdict,
    pub(crate) code: SaveCode,
    pub(crate) file: Option<String>,
    pub(crate) transferred: Transferred,
    pub(crate) error: Option<String>,
}

impl Model for End {
    ghost use Rattle.std.specs.Prelude.{string_bytes, option_map};
    ghost use Rattle.mx_save_rules.specs.Ends.{EndValue, IsEnd, end_value};

    ghost Value = { EndValue };

    ghost view = { λ e. end_value e.url.items e.verdict e.code (option_map string_bytes e.file) e.transferred (option_map string_bytes e.error) };

    ghost invariant = { λ e. IsEnd (end_value e.url.items e.verdict e.code (option_map string_bytes e.file) e.transferred (option_map string_bytes e.error)) };
}

/// The same without a body's length.
fn without_length(transferred: Transferred) -> Transferred
    ensures { result ≡ record transferred { length = 0 } }
{
    Transferred {
        status: transferred.status,
        length: 0,
        framing: transferred.framing,
        hops: transferred.hops,
        tries: transferred.tries,
    }
}

impl End {
    /// A URL whose body is in that file.
    pub fn saved(url: Vec<u8>, file: String, transferred: Transferred) -> End
        ensures { result ≡ saved_end url.items (string_bytes file) transferred }
    {
        End {
            url,
            verdict: Verdict::Saved,
            code: SaveCode::Transfer(Code::Ok),
            file: Some(file),
            transferred,
            error: None,
        }
    }

    /// A URL whose response is whole and has nothing to save.
    pub fn done(url: Vec<u8>, transferred: Transferred) -> End
        ensures { result ≡ done_end url.items transferred }
    {
        End {
            url,
            verdict: Verdict::Done,
            code: SaveCode::Transfer(Code::Ok),
            file: None,
            transferred,
            error: None,
        }
    }

    /// A URL that wasn't asked for, since that file was there.
    pub fn skipped(url: Vec<u8>, file: String) -> End
        ensures { result ≡ skipped_end url.items (string_bytes file) }
    {
        End {
            url,
            verdict: Verdict::Skipped,
            code: SaveCode::Transfer(Code::Ok),
            file: Some(file),
            transferred: Transferred {
                status: 0,
                length: 0,
                framing: None,
                hops: 0,
                tries: 0,
            },
            error: None,
        }
    }

    /// A URL that failed with a code that isn't 0, and its words, if any. Its length is reported as 0.
    pub fn failed(
        url: Vec<u8>,
        code: SaveCode,
        transferred: Transferred,
        error: Option<String>,
    ) -> End
        requires { save_number code ≢ 0 }
        ensures { result ≡ failed_end url.items code transferred (option_map string_bytes error) }
    {
        End {
            url,
            verdict: Verdict::Failed,
            code,
            file: None,
            transferred: without_length(transferred),
            error,
        }
    }

    /// What holds of every end. It does nothing: a call gives its caller's proof the law.
    pub fn know(&self)
        ensures { IsEnd self.now }
    {
        // proof: what holds of an end
        let _verdict = self.verdict;
    }

    /// The code.
    pub fn code(&self) -> SaveCode
        ensures { result ≡ self.now.code }
    {
        self.code
    }

    /// The URL.
    pub fn url(&self) -> &[u8]
        ensures { result.now ≡ self.now.url }
    {
        self.url.as_slice()
    }

    /// The length of the body, 0 where the URL failed.
    pub fn length(&self) -> u64
        ensures { result ≡ self.now.length }
    {
        self.transferred.length
    }

    /// The words of a failure, if any.
    pub fn error(&self) -> Option<&str>
        ensures { option_map (λ text. text.now) result ≡ self.now.error }
    {
        match &self.error {
            Some(text) => Some(text.as_str()),
            None => None,
        }
    }

    /// What became of the URL.
    pub fn verdict(&self) -> Verdict
        ensures { result ≡ self.now.verdict }
    {
        self.verdict
    }
}
