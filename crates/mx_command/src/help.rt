//! The texts of the help. No line has more than 80 bytes.

/// What `mxfetch` is.
pub const MXFETCH: &str =
    "Fetches and saves URLs over HTTP/1.1, decodes responses, and plays scripts of
calls on the control core of a multi handle";

/// Where the help of `mxfetch` refers to.
pub const MORE: &str = "Examples:
    mxfetch get http://example.com/ http://example.org/
    mxfetch save --into pages http://example.com/a http://example.com/b
    printf 'HTTP/1.1 200 OK\\r\\nContent-Length: 2\\r\\n\\r\\nhi' | mxfetch body GET
    printf 'add 7\\ndone 0 0 5\\nread\\n' | mxfetch play

`mxfetch help COMMAND` has what a command prints, and its exit statuses.";

/// What is said where no command was given.
pub const NO_COMMAND: &str = "no command was given: it is `get`, `save`, `body` or `play`

  example: mxfetch get http://example.com/";

/// What `get` does, in a line.
pub const GET: &str = "Fetch URLs, and print what each ended with";

/// What `get` does.
pub const LONG_GET: &str =
    "Fetch 1 to 256 URLs of scheme http by GET, with workers on threads that keep
their connections. Each prints a line, its body and the end of a line, in the
order of the URLs, once it and all before it have ended:

    transfer H code C status S length B

H counts the URLs from 0; C is the number of a CURLcode (libcurl-errors(3)), 0
where all went well; S is the status of the response, 0 where there was none; B
is the length of the body, 0 where C is not 0. Where redirects are followed
these are of the last response. With --max-redirects 0, which is what is meant
where it isn't given, none is followed, and a redirect is printed as it is. With
one worker the URLs are fetched one after the other. With more they are fetched
at the same time: all, or with --at-once N the first N, and then one more for
each that has ended.

With --explain standard error says of each URL that failed why: of a response
that is refused the byte, counted from 1, and the rule; of one that ended early
how much of it came. What is printed stays the same.

With --body there is one URL, and the body of its response, whatever its status
and its length, is written as it comes, and nothing else. Where that fails, a
line on standard error says why, and what was written is a prefix of the body:
    mxfetch get --body http://example.com/a.tar | tar x";

/// The exit statuses of `get`, and an example.
pub const MORE_GET: &str = "Exit status: the first C that isn't 0, in the order of the URLs:
    0  each response came whole, whatever its status; or this help was printed
    1  the scheme of a URL, or of where a redirect leads, isn't http
    3  a URL, or where a redirect leads, doesn't parse, or has a user name or a
       password
    6  a host wasn't found
    7  a connection was refused, or could not be made
    8  what came is not an HTTP response, or its head is incomplete or refused
   18  a connection ended within a body
   23  with --body: the body couldn't be written
   27  out of memory, or (`FAULT 27`) no thread, poll, clock or result
   28  a transfer took longer than --timeout-ms
   47  there were more redirects than --max-redirects
   52  a connection ended before a byte came
   55  a request could not be sent
   56  a read failed, or the framing of a chunked body is bad
   61  a transfer coding other than one `chunked`
   63  without --body: a response can't fit in 67108864 bytes
  100  a head has more than 65536 bytes or 128 field lines
  120  the command line is refused, or has more than 256 URLs, with --body one
  121  the output couldn't be written

Example:
    $ mxfetch get --workers 4 --timeout-ms 5000 http://example.com/";

/// What `body` does, in a line.
pub const BODY: &str = "Decode a whole response on standard input and print its body";

/// What `body` does.
pub const LONG_BODY: &str =
    "Decode one HTTP/1.1 response that stands whole on standard input, as the answer
to a request of METHOD. A whole response prints a line, and then its body and
nothing else:

    OK status=S body=B keep=K left=R

S is the status, B the length of the body, K whether the connection may serve
another request (yes or no), and R how many bytes of what was read stand behind
the response. At most 67108865 bytes are read, one more than a response may
have. Anything else prints `FAULT C`, where C is the number of a CURLcode
(libcurl-errors(3)), and is the exit status.

With --explain standard error says why a response isn't whole: the byte at which
it is refused, counted from 1, and the rule; or how much of it came. What is
printed stays the same.";

/// The exit statuses of `body`, and an example.
pub const MORE_BODY: &str = "Exit status:
    0  a whole response was printed, or this help
    8  what came is not an HTTP response, or its head is incomplete or refused
   18  the input ended within the body
   27  out of memory
   52  there was no input
   56  a read of the input failed, or the framing of a chunked body is bad
   61  a transfer coding other than one `chunked`
   63  the response can't fit in 67108864 bytes
  100  a head has more than 65536 bytes or 128 field lines
  120  the command line is refused
  121  the output couldn't be written

Example:
    $ curl -si --raw --http1.1 http://example.com/ | mxfetch body GET";

/// What `play` does, in a line.
pub const PLAY: &str = "Play a script of calls on the control core, on one thread";

/// What `play` does.
pub const LONG_PLAY: &str =
    "Play a script of calls on the control core of a multi handle, on one thread.
Each line of standard input is a call, or `retire`, in words with one space
between them, and prints one of these answers:

    add H          added T, added-already, table-full, tickets-spent,
                   history-full
    remove H       removed, not-added
    pause H        changed, not-added, not-running, no-change, history-full
    unpause H      changed, not-added, not-running, no-change, history-full
    read           message H T CODE N left K, empty
    wakeup         ok, failure
    poll           woken, would-wait
    done T CODE N  recorded, stale, no-claim
    handles        handles, and the added handles
    running        running N
    state H        not-added, running T, paused T, done T CODE, read T CODE
    retire         retired L, claim-out

H is a handle, and T the ticket of one addition of it. `done` reports the end of
an addition: the number of a CURLcode (libcurl-errors(3)), and the length of its
body. `retire` drops the events of handles that aren't added any more, and the
wakeups, from the history, where each addition's end was reported; L is how many
are kept. Tickets only rise, and the greatest is 4294967294: with --first-ticket
4294967295 none is left. A number is 1 to 10 digits, of at most 4294967295; at
most 256 handles are added at a time; a line has at most 64 bytes before its LF.
Empty lines, and lines that begin with `#`, print nothing. Any other line prints
`bad-line K`, with its number from 1 on, and ends the run.";

/// The exit statuses of `play`, and an example.
pub const MORE_PLAY: &str = "Exit status:
    0  each line was answered, or this help was printed
   27  out of memory: `FAULT 27` is printed
   56  a read of the input failed: `FAULT 56` is printed
  120  the command line is refused
  121  the output couldn't be written
  122  a line of the script is neither a call nor `retire`

Example:
    $ printf 'add 7\\ndone 0 0 5\\nread\\n' | mxfetch play
    added 0
    recorded
    message 7 0 0 5 left 0";
