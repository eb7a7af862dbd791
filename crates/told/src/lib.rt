// What the calls for C tell and write: the number, query and axis beside it, and entries of slices of any length.
#![tactic(auto)]

ghost use Rattle.std.specs.Prelude.{◌≡◌, min, set};
ghost use Rattle.multicubic.specs.Answers.{number_of, answer_outcome};
ghost use Rattle.told.specs.Told.{leaves_marked, told, with_value, entries_of, with_first, with_places, origins_at, class_number, class_numbers, mark_number, with_marks, with_sums, with_both};

use multicubic::{
    Answer, GradientAnswer, Marked, Marks, Outcome, Place, PlaceAnswer, Saturation, outcome_of,
};
use with_grad::ValueAndGradient;

// The number of an outcome: that of the check that refuses, else 0.
fn number_of(outcome: Outcome) -> u8
    ensures { result ≡ number_of outcome }
{
    match outcome {
        Ok(()) => 0,
        Err(by) => by.check.number(),
    }
}

// Writes query and axis, on every number but 7, and gives the number.
pub fn tell(outcome: Outcome, refusal: &mut [usize]) -> u8
    ensures value { result ≡ number_of outcome }
    ensures refusal_after { refusal.new ≡ told outcome refusal.old }
{
    let number = number_of(outcome);
    let (query, axis) = match outcome {
        Ok(()) => (0, 0),
        Err(by) => (by.query, by.axis),
    };
    if number != 7 && 2 <= refusal.len() {
        refusal[0] = query;
        refusal[1] = axis;
    }
    number
}

// Writes entry i, where there is one.
fn put<T: Copy>(out: &mut [T], i: usize, x: T)
    ensures { out.new ≡ set out.old i x }
{
    if i < out.len() {
        out[i] = x;
    }
}

// Writes a value, where there is one.
fn put_value<T: Copy>(answer: Answer<T>, value: &mut [T])
    ensures { value.new ≡ with_value answer value.old }
{
    if let Ok(v) = answer {
        put(value, 0, v);
    }
}

// Tells a value's answer, and writes the value and its first n marks where there is one.
pub fn tell_value<T: Copy>(
    answer: Marked<Answer<T>>,
    n: usize,
    refusal: &mut [usize],
    value: &mut [T],
    marks: &mut [u8],
) -> u8
    ensures { record { number = result; refusal = refusal.new; written = (value.new, marks.new) }
        ≡ leaves_marked (answer_outcome answer.answer) refusal.old
        (with_value answer.answer value.old) n answer.marks marks.old }
{
    let outcome = outcome_of(answer.answer);
    put_value(answer.answer, value);
    put_marks(outcome, n, answer.marks, marks);
    tell(outcome, refusal)
}

// How many of four entries are written.
pub fn entries(outcome: Outcome, n: usize) -> usize
    ensures { result ≡ min (entries_of outcome n) 4 }
{
    match outcome {
        Ok(()) => n.min(4),
        Err(_) => 0,
    }
}

// Writes the first n of four, where the call is accepted.
fn put_first<T: Copy>(outcome: Outcome, n: usize, xs: [T; 4], out: &mut [T])
    ensures { out.new ≡ with_first outcome n xs out.old }
{
    for i in 0..entries(outcome, n) {
        put(out, i, xs[i]);
    }
}

// Writes the first n origins and classes, where the call is accepted.
fn put_places(
    outcome: Outcome,
    n: usize,
    places: [Place; 4],
    origins: &mut [usize],
    classes: &mut [u8],
)
    ensures origins_after { origins.new ≡ with_first outcome n (origins_at places) origins.old }
    ensures classes_after { classes.new ≡ with_first outcome n (class_numbers places) classes.old }
{
    put_first(outcome, n, places.map(|place| place.origin), origins);
    let numbers = places.map(|place| class_number(place.class));
    put_first(outcome, n, numbers, classes);
}

fn class_number(class: Saturation) -> u8
    ensures { result ≡ class_number class }
{
    match class {
        Saturation::None => 0,
        Saturation::InsideLow => 1,
        Saturation::OutsideLow => 2,
        Saturation::InsideHigh => 3,
        Saturation::OutsideHigh => 4,
    }
}

// The number of a pair of marks.
fn mark_number(pair: Marks) -> u8
    ensures { result ≡ mark_number pair }
{
    if pair.below {
        1
    } else if pair.above {
        2
    } else {
        0
    }
}

// Writes the first n marks, where the call is accepted.
pub fn put_marks(outcome: Outcome, n: usize, pairs: [Marks; 4], marks: &mut [u8])
    ensures { marks.new ≡ with_marks outcome n pairs marks.old }
{
    put_first(outcome, n, pairs.map(mark_number), marks);
}

// Tells a gradient's answer, and writes its first n components and marks where it is accepted.
pub fn tell_gradient<T: Copy>(
    answer: Marked<GradientAnswer<T>>,
    n: usize,
    refusal: &mut [usize],
    gradient: &mut [T],
    marks: &mut [u8],
) -> u8
    ensures { record { number = result; refusal = refusal.new; written = (gradient.new, marks.new) }
        ≡ leaves_marked answer.answer.outcome refusal.old
        (with_first answer.answer.outcome n answer.answer.gradient gradient.old) n answer.marks marks.old }
{
    let found = answer.answer;
    put_first(found.outcome, n, found.gradient, gradient);
    put_marks(found.outcome, n, answer.marks, marks);
    tell(found.outcome, refusal)
}

// Tells a place's answer, and writes its first n origins, classes and marks where it is accepted.
pub fn tell_places(
    answer: Marked<PlaceAnswer>,
    n: usize,
    refusal: &mut [usize],
    origins: &mut [usize],
    classes: &mut [u8],
    marks: &mut [u8],
) -> u8
    ensures { record { number = result; refusal = refusal.new; written = ((origins.new, classes.new), marks.new) }
        ≡ leaves_marked answer.answer.outcome refusal.old
        (with_places answer.answer.outcome n answer.answer.places origins.old classes.old) n answer.marks marks.old }
{
    let found = answer.answer;
    put_places(found.outcome, n, found.places, origins, classes);
    put_marks(found.outcome, n, answer.marks, marks);
    tell(found.outcome, refusal)
}

// Writes the number of sums that were taken, on every number but 7.
pub fn put_sums(outcome: Outcome, taken: usize, sums: &mut [usize])
    ensures { sums.new ≡ with_sums outcome taken sums.old }
{
    if number_of(outcome) != 7 {
        put(sums, 0, taken);
    }
}

// Tells the answer of value and gradient together: writes the value, its first n components and marks where it is accepted, and the number of sums.
pub fn tell_both<T: Copy>(
    answer: ValueAndGradient<T>,
    n: usize,
    refusal: &mut [usize],
    value: &mut [T],
    gradient: &mut [T],
    marks: &mut [u8],
    sums: &mut [usize],
) -> u8
    ensures { record { number = result; refusal = refusal.new; written = (((value.new, gradient.new), sums.new), marks.new) }
        ≡ leaves_marked (answer_outcome answer.answer) refusal.old
        (with_both answer.answer n answer.gradient answer.sums.taken value.old gradient.old sums.old)
        n answer.marks marks.old }
{
    let outcome = outcome_of(answer.answer);
    put_value(answer.answer, value);
    put_first(outcome, n, answer.gradient, gradient);
    put_marks(outcome, n, answer.marks, marks);
    put_sums(outcome, counted_sums::number(answer.sums), sums);
    tell(outcome, refusal)
}
