//! Three parts that are out at a time, and come back in any order.
ghost use Rattle.std.specs.Prelude.{◌≡◌, ◌≢◌, [], OnSome};
ghost use Rattle.std.specs.List.{Contains};

use crate::bodies::{is_same, name_of};
use crate::parts::{How, OpenPart, Parts, Told, end, give_all, make, words_of};
use crate::sink_bodies::give;
use mx_folder::{FileName, Folder, PartFile};
use mx_save::Ledger;
use mx_sink::Sink;
use mx_types::OutOfMemory;
use std::alloc::{AllocError, Global};

/// The order in which three parts come back, by that in which they were made.
#[derive(Clone, Copy)]
pub enum Order {
    FirstSecondThird,
    SecondThirdFirst,
    ThirdSecondFirst,
}

/// Three bodies, which are written in turns, what is done with the part of each, and the order in which that is done.
#[derive(Clone, Copy)]
pub struct Three<'b> {
    pub bodies: [&'b [&'b [u8]]; 3],
    pub hows: [How; 3],
    pub order: Order,
}

// How many turns there are: as many as a body has pieces, at most.
const TURNS: usize = 8;

// A part that is out, the name of its body, and what is done with it.
#[derive(Drop)]
struct PlannedPart<'a, P: PartFile> {
    part: OpenPart<P>,
    name: &'a FileName,
    how: How,
}

/// The names of three bodies.
pub fn three_names(alloc: Global) -> Result<[FileName; 3], OutOfMemory> {
    Ok([
        name_of(alloc, "http://h/x")?,
        name_of(alloc, "http://h/y")?,
        name_of(alloc, "http://h/z")?,
    ])
}

// Gives a sink the piece of this number, if there is one.
fn give_piece<S: Sink>(sink: &mut S, pieces: &[&[u8]], at: usize) {
    if let Some(piece) = pieces.get(at) {
        let _taken = give(sink, *piece, usize::MAX);
    }
}

// Gives three sinks the pieces of three bodies, in turns.
fn give_in_turns<S: Sink>(one: &mut S, two: &mut S, three: &mut S, bodies: &[&[&[u8]]; 3]) {
    let [first, second, third] = bodies;
    for at in 0..TURNS {
        give_piece(one, *first, at);
        give_piece(two, *second, at);
        give_piece(three, *third, at);
    }
}

// Does with three parts what is planned, with one after another.
fn end_all<F: Folder>(
    ledger: &mut Parts<F>,
    one: PlannedPart<'_, F::Part>,
    two: PlannedPart<'_, F::Part>,
    three: PlannedPart<'_, F::Part>,
) -> [Told; 3]
    requires one_is_out { Contains ledger.old.out one.part.number }
    requires two_is_out { Contains ledger.old.out two.part.number }
    requires three_is_out { Contains ledger.old.out three.part.number }
    requires two_from_one { (two.part.number ≢ one.part.number) × (two.name.now ≢ one.name.now) }
    requires three_from_one { (three.part.number ≢ one.part.number) × (three.name.now ≢ one.name.now) }
    requires three_from_two { (three.part.number ≢ two.part.number) × (three.name.now ≢ two.name.now) }
    requires fresh { ledger.old.entries ≡ [] }
{
    let first = end(ledger, one.part, one.name, one.how);
    let second = end(ledger, two.part, two.name, two.how);
    let third = end(ledger, three.part, three.name, three.how);
    [first, second, third]
}

// The same in that order.
fn end_in_order<F: Folder>(
    ledger: &mut Parts<F>,
    one: PlannedPart<'_, F::Part>,
    two: PlannedPart<'_, F::Part>,
    three: PlannedPart<'_, F::Part>,
    order: Order,
) -> [Told; 3]
    requires one_is_out { Contains ledger.old.out one.part.number }
    requires two_is_out { Contains ledger.old.out two.part.number }
    requires three_is_out { Contains ledger.old.out three.part.number }
    requires two_from_one { (two.part.number ≢ one.part.number) × (two.name.now ≢ one.name.now) }
    requires three_from_one { (three.part.number ≢ one.part.number) × (three.name.now ≢ one.name.now) }
    requires three_from_two { (three.part.number ≢ two.part.number) × (three.name.now ≢ two.name.now) }
    requires fresh { ledger.old.entries ≡ [] }
{
    match order {
        Order::FirstSecondThird => end_all(ledger, one, two, three),
        Order::SecondThirdFirst => end_all(ledger, two, three, one),
        Order::ThirdSecondFirst => end_all(ledger, three, two, one),
    }
}

// Makes three parts, has their bodies written, and does with them what the row says. The answer is what is told of each, in the order in
// which they come back; None where one can't be made, or two have the same number.
fn save_into<F: Folder>(
    alloc: Global,
    ledger: &mut Parts<F>,
    names: &[FileName; 3],
    row: &Three<'_>,
) -> Option<[Told; 3]>
    requires { ledger.old.entries ≡ [] }
{
    let [x, y, z] = names;
    if y.is_same(x) || z.is_same(x) || z.is_same(y) {
        return None;
    }
    let Ok(mut first) = make(alloc, ledger) else {
        return None;
    };
    let Ok(mut second) = make(alloc, ledger) else {
        return None;
    };
    let Ok(mut third) = make(alloc, ledger) else {
        return None;
    };
    if !second.is_apart(&first) || !third.is_apart(&first) || !third.is_apart(&second) {
        return None;
    }
    give_in_turns(
        &mut first.sink,
        &mut second.sink,
        &mut third.sink,
        &row.bodies,
    );
    let [one, two, three] = row.hows;
    let first = PlannedPart {
        part: first,
        name: x,
        how: one,
    };
    let second = PlannedPart {
        part: second,
        name: y,
        how: two,
    };
    let third = PlannedPart {
        part: third,
        name: z,
        how: three,
    };
    Some(end_in_order(ledger, first, second, third, row.order))
}

/// Saves three bodies by a run of its own: what is told of each, in the order in which their parts come back, and the folder; None where a
/// part can't be made.
pub fn save_three<F: Folder>(
    alloc: Global,
    folder: F,
    names: &[FileName; 3],
    row: &Three<'_>,
) -> (Option<[Told; 3]>, F) {
    let mut ledger = Ledger::new(alloc, 42, folder, false);
    let told = save_into(alloc, &mut ledger, names, row);
    (told, ledger.finish().0)
}

// Makes three parts, of which the second is refused, has the bodies of the two others written, and keeps the third and then the first. The
// answer is what is told of the second, the third and the first; None where the first or the third can't be made, or the second can.
fn save_around<F: Folder>(
    alloc: Global,
    ledger: &mut Parts<F>,
    names: &[FileName; 3],
    bodies: &[&[&[u8]]; 3],
) -> Option<[Told; 3]>
    requires { ledger.old.entries ≡ [] }
{
    let [x, _, z] = names;
    let [one, _, three] = bodies;
    let Ok(mut first) = make(alloc, ledger) else {
        return None;
    };
    let Err(second) = make(alloc, ledger) else {
        return None;
    };
    let Ok(mut third) = make(alloc, ledger) else {
        return None;
    };
    if z.is_same(x) || !third.is_apart(&first) {
        return None;
    }
    give_all(&mut first.sink, *one);
    give_all(&mut third.sink, *three);
    let third = end(ledger, third, z, How::Keep);
    let first = end(ledger, first, x, How::Keep);
    Some([Told::Unsaved(second), third, first])
}

/// Saves two bodies around one whose part can't be made, by a run of its own: what is told of that, of the third and of the first, and the
/// folder; None where it is another that can't be made.
pub fn save_two_of_three<F: Folder>(
    alloc: Global,
    folder: F,
    names: &[FileName; 3],
    bodies: &[&[&[u8]]; 3],
) -> (Option<[Told; 3]>, F) {
    let mut ledger = Ledger::new(alloc, 42, folder, false);
    let told = save_around(alloc, &mut ledger, names, bodies);
    (told, ledger.finish().0)
}

// Makes three parts, has their bodies written, drops the second and the third, keeps the first, and sweeps. The answer is what is told of the
// first; None where one can't be made.
fn save_first<F: Folder>(
    alloc: Global,
    ledger: &mut Parts<F>,
    name: &FileName,
    bodies: &[&[&[u8]]; 3],
) -> Option<Told>
    requires { ledger.old.entries ≡ [] }
    ensures { OnSome result (ledger.new.out ≡ []) }
{
    let Ok(mut first) = make(alloc, ledger) else {
        return None;
    };
    let Ok(mut second) = make(alloc, ledger) else {
        return None;
    };
    let Ok(mut third) = make(alloc, ledger) else {
        return None;
    };
    give_in_turns(&mut first.sink, &mut second.sink, &mut third.sink, bodies);
    drop(second);
    drop(third);
    let told = end(ledger, first, name, How::Keep);
    ledger.sweep();
    Some(told)
}

/// Saves one body of three, by a run of its own that ends early: what is told of that, and the folder, in which the parts of the two others
/// were swept; None where a part can't be made.
pub fn save_one_of_three<F: Folder>(
    alloc: Global,
    folder: F,
    name: &FileName,
    bodies: &[&[&[u8]]; 3],
) -> (Option<Told>, F) {
    let mut ledger = Ledger::new(alloc, 42, folder, false);
    let told = save_first(alloc, &mut ledger, name, bodies);
    (told, ledger.finish().0)
}

// What is told of three parts, in words, with the end of a line after each.
fn words_of_all(alloc: Global, told: &[Told; 3]) -> Result<String, AllocError> {
    let mut words = String::new(alloc);
    for one in told {
        words.push_str(words_of(alloc, one)?.as_str())?;
        words.push('\n')?;
    }
    Ok(words)
}

/// Whether that is told of three parts.
pub fn is_told(alloc: Global, told: &Option<[Told; 3]>, wanted: &str) -> Result<bool, OutOfMemory> {
    match told {
        Some(told) => {
            let words = words_of_all(alloc, told)?;
            Ok(is_same(words.as_bytes(), wanted.as_bytes()))
        }
        None => Ok(false),
    }
}
