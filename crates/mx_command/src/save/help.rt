//! The texts of the help. No line has more than 80 bytes.

/// What `save` does, in a line.
pub const SAVE: &str = "Save the bodies of URLs in a folder, each whole";

/// What `save` does.
pub const LONG_SAVE: &str =
    "Save the bodies of URLs of scheme http in a folder. A body gets its name when
the response was whole, and not before: a file reported as saved is whole.
As each URL ends it prints a line, with one space between:

    VERDICT CODE STATUS LENGTH FILE URL

VERDICT is saved, done (a whole response with nothing to save), skipped or
failed; CODE the number of a CURLcode (libcurl-errors(3)), 0 unless it failed;
STATUS the status of the response, 0 where there was none; LENGTH the length of
the body, 0 where it failed; FILE the name in the folder, - for none. Of FILE
and URL each byte that isn't visible ASCII is %XX. Lines come in the order in
which transfers end. A response whose status isn't 2xx fails with 22, unless
--content-on-error is given.

A list has a URL on each line; blank lines and lines that begin with # are
ignored. A URL that failed with 6, 7, 18, 28, 52, 55 or 56, or with status 408,
429, 500, 502, 503 or 504, is tried again as often as --retry says, after 1, 2,
4 and up to 60 seconds, if its method is GET or HEAD. Without --method it is
GET, or POST where there is --data.";

/// The exit statuses of `save`, and an example.
pub const MORE_SAVE: &str = "Exit status: the first CODE that isn't 0, in the order of the URLs; but
    0  each URL was saved, done or skipped; or this help was printed
   23  the folder couldn't be made; or flushed, where each CODE is 0
   26  the list, or the file of --data, couldn't be read
   27  out of memory, or the system gave no thread, poll or clock
  120  the command line is refused, or no request can have its header fields,
       its user agent or its body
  121  the output couldn't be written

Example:
    $ mxfetch save --into pkgs --retry 2 --input urls.txt";

/// What is said where the folder has no name.
pub const NO_FOLDER: &str = "the name of the folder is empty: it is written `--into DIR`";

/// What is said where an option has no value, or one that it doesn't take, and clap hasn't said so.
pub const NO_VALUE: &str = "an option has no value, or one that it doesn't take";

/// What is said of a header field without a colon.
pub const NO_HEADER: &str = "a header field has no colon: it is written `-H 'NAME: VALUE'`";
