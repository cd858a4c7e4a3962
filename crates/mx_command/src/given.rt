//! The values that clap found, by the names of their options.
ghost use Rattle.std.specs.Prelude.{◌≡◌, Some, IfOk, IfSome, map};
ghost use Rattle.clap.specs.Words.{found_of};
ghost use Rattle.mx_command.specs.Given.{AreOptionsOf, IsFlagOf, number_of, texts_of};

use clap::ArgMatches;
use mx_run_io::Options;
use std::alloc::{AllocError, Global};

/// The number of an option of at most 255, if it has one.
pub(crate) fn byte_of(given: &ArgMatches<'_>, id: &str) -> Option<u8>
    ensures { IfSome result (λ n. number_of (found_of given.now) id.now ≡ Some n) }
{
    given.get_one::<u8>(id)
}

/// The number of an option of at most 65,535, if it has one.
pub(crate) fn short_of(given: &ArgMatches<'_>, id: &str) -> Option<u16>
    ensures { IfSome result (λ n. number_of (found_of given.now) id.now ≡ Some n) }
{
    given.get_one::<u16>(id)
}

/// The number of an option of at most 4,294,967,295, if it has one.
pub(crate) fn word_of(given: &ArgMatches<'_>, id: &str) -> Option<u32>
    ensures { IfSome result (λ n. number_of (found_of given.now) id.now ≡ Some n) }
{
    given.get_one::<u32>(id)
}

/// The number of an option of at most 18,446,744,073,709,551,615, if it has one.
pub(crate) fn long_of(given: &ArgMatches<'_>, id: &str) -> Option<u64>
    ensures { IfSome result (λ n. number_of (found_of given.now) id.now ≡ Some n) }
{
    given.get_one::<u64>(id)
}

/// Whether an option was given that takes no value.
pub(crate) fn flag_of(given: &ArgMatches<'_>, id: &str) -> bool
    ensures { IsFlagOf (found_of given.now) id.now result }
{
    given.get_flag(id)
}

/// The values of an option, in their order.
pub(crate) fn texts_of<'a>(
    alloc: Global,
    given: &ArgMatches<'a>,
    id: &str,
) -> Result<Vec<&'a str>, AllocError>
    ensures { IfOk result (λ texts. map (λ t. t.now) texts.items ≡ texts_of (found_of given.now) id.now) }
{
    match given.get_strs(id) {
        Some(texts) => Vec::from_slice(alloc, texts),
        None => Ok(Vec::new(alloc)),
    }
}

/// How URLs are fetched, if the values are there.
pub(crate) fn options_of(given: &ArgMatches<'_>) -> Option<Options>
    ensures { IfSome result (AreOptionsOf (found_of given.now)) }
{
    Some(Options {
        workers: byte_of(given, "workers")?,
        at_once: short_of(given, "at-once")?,
        timeout_ms: word_of(given, "timeout-ms")?,
        max_connects: byte_of(given, "max-connects")?,
        max_redirects: byte_of(given, "max-redirects")?,
    })
}
