//! The path in the text of a URL.
ghost use Rattle.std.specs.Prelude.{◌≡◌, ◌≤◌, not, length};
ghost use Rattle.std.specs.List.{prefix_len};
ghost use Rattle.mx_folder.specs.Paths.{is_among, before, from, behind, path_of, last_segment};

// How many bytes are before the first of these.
fn len_before(text: &[u8], stops: &[u8]) -> usize
    ensures value { result ≡ prefix_len (λ b. not (is_among stops.now b)) text.now }
    ensures within { result ≤ length text.now }
{
    let mut len = 0;
    while len < text.len() && !stops.contains(&text[len]) {
        len += 1;
    }
    len
}

// How many of these are before all other bytes.
fn len_of(text: &[u8], skipped: &[u8]) -> usize
    ensures value { result ≡ prefix_len (is_among skipped.now) text.now }
    ensures within { result ≤ length text.now }
{
    let mut len = 0;
    while len < text.len() && skipped.contains(&text[len]) {
        len += 1;
    }
    len
}

// What is before the first of these bytes.
fn before<'a>(text: &'a [u8], stops: &[u8]) -> &'a [u8]
    ensures { result.now ≡ before stops.now text.now }
{
    text.split_at(len_before(text, stops)).0
}

// The first of these bytes, and what follows it.
fn from<'a>(text: &'a [u8], stops: &[u8]) -> &'a [u8]
    ensures { result.now ≡ from stops.now text.now }
{
    text.split_at(len_before(text, stops)).1
}

// What follows these bytes.
fn behind<'a>(text: &'a [u8], skipped: &[u8]) -> &'a [u8]
    ensures { result.now ≡ behind skipped.now text.now }
{
    text.split_at(len_of(text, skipped)).1
}

// Taken from the text, since a parser removes a last segment of two dots. Any number of slashes is passed, as in the URL Standard.
// rule file-url-path
/// The path in the text of a URL, as written (RFC 3986, 3): after the colon of the scheme, the slashes and the authority, up to
/// the query or the fragment. It is empty where the text has no colon, and where the authority is all that follows. Whether the text is
/// a URL isn't asked.
pub fn path_of(url: &[u8]) -> &[u8]
    ensures { result.now ≡ path_of url.now }
{
    let authority = behind(from(url, b":"), b":/");
    before(from(authority, b"/?#"), b"?#")
}

/// What follows the last slash of a path.
pub(crate) fn last_segment(path: &[u8]) -> &[u8]
    ensures { result.now ≡ last_segment path.now }
{
    let mut start = 0;
    for (i, b) in path.iter().enumerate() {
        if *b == b'/' {
            start = i + 1;
        }
    }
    &path[start..]
}
