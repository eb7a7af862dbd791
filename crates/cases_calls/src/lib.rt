// What the program `cases` makes a case of: grids, and the calls of a case with their comparison and its line.
#![tactic(auto)]

ghost use Rattle.std.specs.Prelude.{◌≡◌, length};

use harness_batches::{marked, run_batches};
use harness_calls::{call_new, same_outcome, same_value};
use harness_corpus::{Axes, Expected, ExpectedPlace, Group, part, refusal};
use harness_with_grad::same_single;
use harness_words::{Call, Difference, Part, Tally};
use multicubic::{Answer, Axis, Check, EdgeMode, Marked, Marks, Outcome, Place, Saturation};
use std::io;

// How many cases there were, and how many of them agree.
#[derive(Clone, Copy, Default)]
pub struct Score {
    pub agree: u64,
    pub all: u64,
}

// Writes the line of a case.
pub fn told(
    rt: &impl Print,
    s: &mut Score,
    case: Result<(), Difference>,
    name: &str,
) -> io::Result<()> {
    s.all = s.all.wrapping_add(1);
    match case {
        Ok(()) => {
            s.agree = s.agree.wrapping_add(1);
            println!(rt; "ok {name}")
        }
        Err(difference) => println!(rt; "DIFFERS {name}: {difference}"),
    }
}

// Writes the last line.
pub fn told_all(rt: &impl Print, s: Score) -> io::Result<()> {
    let Score { agree, all } = s;
    println!(rt; "cases: {agree} of {all} agree")
}

fn axis(step: f64, count: usize) -> Axis<f64> {
    Axis {
        start: 0.0,
        step,
        count,
    }
}

// A grid, with buffers for two queries on two axes.
fn grid(n: usize, axes: Axes) -> Group {
    Group {
        n,
        mode: EdgeMode::Straight,
        axes,
        count: 2,
        entries: 4,
    }
}

// A regular grid from 0 on; the third axis has the step 1.
pub fn regular(n: usize, c0: usize, c1: usize, c2: usize, s0: f64, s1: f64) -> Group {
    let axes = [axis(s0, c0), axis(s1, c1), axis(1.0, c2), axis(1.0, 4)];
    grid(n, Axes::Regular(axes))
}

pub fn rectilinear(n: usize, c0: usize, c1: usize, c2: usize) -> Group {
    grid(n, Axes::Rectilinear([c0, c1, c2, 4]))
}

// One regular axis of four entries.
pub fn regular_from(start: f64, step: f64) -> Group {
    let first = Axis {
        start,
        step,
        count: 4,
    };
    grid(1, Axes::Regular([first; 4]))
}

// The same grid in another mode.
pub fn cubic(g: Group) -> Group {
    Group {
        mode: EdgeMode::Cubic,
        ..g
    }
}

pub fn held(g: Group) -> Group {
    Group {
        mode: EdgeMode::Held,
        ..g
    }
}

// The same grid with buffers of other lengths.
pub fn with_buffers(g: Group, count: usize, entries: usize) -> Group {
    Group {
        count,
        entries,
        ..g
    }
}

// What `new` gives of the grid, compared.
fn made(
    t: &mut Tally,
    g: Group,
    axes: &[f64],
    vals: &[f64],
    outcome: Outcome,
) -> Result<(), Difference> {
    same_outcome(t, Call::New, outcome, call_new(g, axes, vals))
}

// Every one of the seven calls gives the refusal, whatever is asked, and the buffers keep their contents.
pub fn refused_asked(
    rt: &impl Print,
    s: &mut Score,
    g: Group,
    axes: &[f64],
    vals: &[f64],
    x: [f64; 4],
    queries: &[f64],
    check: Check,
    axis: usize,
    name: &str,
) -> io::Result<()> {
    let outcome = Err(check.at(0, axis));
    let before = marked();
    let mut t = Tally::default();
    let case = made(&mut t, g, axes, vals, outcome)
        .and(same_single(&mut t, g, axes, vals, x, refusal(check, axis)))
        .and(run_batches(&mut t, g, axes, vals, queries, outcome, &before, &before));
    told(rt, s, case, name)
}

// The same, asked at 0.5.
fn refused(
    rt: &impl Print,
    s: &mut Score,
    g: Group,
    axes: &[f64],
    vals: &[f64],
    check: Check,
    axis: usize,
    name: &str,
) -> io::Result<()> {
    refused_asked(rt, s, g, axes, vals, [0.5; 4], &[0.5; 4], check, axis, name)
}

// Both batches are refused by check 7, and the buffers keep their contents.
pub fn refused_batch(
    rt: &impl Print,
    s: &mut Score,
    g: Group,
    axes: &[f64],
    vals: &[f64],
    queries: &[f64],
    name: &str,
) -> io::Result<()> {
    let outcome = Err(Check::BatchLength.at(0, 0));
    let before = marked();
    let mut t = Tally::default();
    let case = made(&mut t, g, axes, vals, Ok(())).and(run_batches(
        &mut t, g, axes, vals, queries, outcome, &before, &before,
    ));
    told(rt, s, case, name)
}

// `new` takes the grid, and both batches take no queries.
pub fn taken(
    rt: &impl Print,
    s: &mut Score,
    g: Group,
    axes: &[f64],
    vals: &[f64],
    name: &str,
) -> io::Result<()> {
    let before = marked();
    let none = with_buffers(g, 0, 0);
    let mut t = Tally::default();
    let case = made(&mut t, g, axes, vals, Ok(())).and(run_batches(
        &mut t,
        none,
        axes,
        vals,
        &[],
        Ok(()),
        &before,
        &before,
    ));
    told(rt, s, case, name)
}

pub fn placed(origin: usize, class: Saturation) -> Place {
    Place { origin, class }
}

// What a query on one or two axes is answered: its places, its value, its slopes.
pub fn answer_of(places: [Place; 2], value: f64, slopes: [f64; 2]) -> Expected<f64> {
    let past = placed(0, Saturation::None);
    Expected {
        value: Ok(value),
        places: [places[0], places[1], past, past].map(ExpectedPlace::of),
        gradient: [slopes[0], slopes[1], 0.0, 0.0],
    }
}

// A query on one axis is answered, alone and in batches.
pub fn answered(
    rt: &impl Print,
    s: &mut Score,
    g: Group,
    axes: &[f64],
    vals: &[f64],
    x: f64,
    place: Place,
    value: f64,
    slope: f64,
    name: &str,
) -> io::Result<()> {
    let places = [place, placed(0, Saturation::None)];
    let e = answer_of(places, value, [slope, 0.0]);
    let mut values = marked();
    values[0] = value;
    let mut slopes = marked();
    slopes[0] = slope;
    let one = with_buffers(g, 1, 1);
    let mut t = Tally::default();
    let case = made(&mut t, g, axes, vals, Ok(()))
        .and(same_single(&mut t, g, axes, vals, [x, 0.0, 0.0, 0.0], e))
        .and(run_batches(&mut t, one, axes, vals, &[x], Ok(()), &values, &slopes));
    told(rt, s, case, name)
}

// `new` takes the grid, and a query on one axis is refused by the check, alone and in batches whose buffers keep their contents.
pub fn not_placed(
    rt: &impl Print,
    s: &mut Score,
    g: Group,
    axes: &[f64],
    vals: &[f64],
    x: f64,
    check: Check,
    name: &str,
) -> io::Result<()> {
    let outcome = Err(check.at(0, 0));
    let e = refusal(check, 0);
    let before = marked();
    let one = with_buffers(g, 1, 1);
    let mut t = Tally::default();
    let case = made(&mut t, g, axes, vals, Ok(()))
        .and(same_single(&mut t, g, axes, vals, [x, 0.0, 0.0, 0.0], e))
        .and(run_batches(&mut t, one, axes, vals, &[x], outcome, &before, &before));
    told(rt, s, case, name)
}

pub const NEITHER: Marks = Marks {
    below: false,
    above: false,
};

pub const BELOW: Marks = Marks {
    below: true,
    above: false,
};

pub const ABOVE: Marks = Marks {
    below: false,
    above: true,
};

// 0 neither, 1 below, 2 above, 3 both.
fn mark_of(marks: Marks) -> u64 {
    match (marks.below, marks.above) {
        (false, false) => 0,
        (true, false) => 1,
        (false, true) => 2,
        (true, true) => 3,
    }
}

// The marks of a single answer, past the axis count too.
pub fn same_marks(
    t: &mut Tally,
    call: Call,
    expected: [Marks; 4],
    found: [Marks; 4],
) -> Result<(), Difference> {
    for axis in 0..4 {
        let mark = mark_of(expected[axis]);
        t.same(call, Part::Mark, axis, mark, mark_of(found[axis]))?;
    }
    Ok(())
}

// The value on a grid that is made as a struct and asked.
fn ask(g: Group, axes: &[f64], vals: &[f64], x: [f64; 4]) -> Marked<Answer<f64>> {
    match g.axes {
        Axes::Regular(regular_axes) => grids::ask_regular(g.n, regular_axes, vals, g.mode, x),
        Axes::Rectilinear(counts) => grids::ask_rectilinear(g.n, counts, axes, vals, g.mode, x),
    }
}

// A kept grid is asked at x on one axis.
pub fn kept(
    rt: &impl Print,
    s: &mut Score,
    g: Group,
    axes: &[f64],
    vals: &[f64],
    x: f64,
    answer: Answer<f64>,
    mark: Marks,
    name: &str,
) -> io::Result<()> {
    let asked = ask(g, axes, vals, [x, 0.0, 0.0, 0.0]);
    let marks = [mark, NEITHER, NEITHER, NEITHER];
    let mut t = Tally::default();
    let case = same_value(&mut t, Call::InterpOne, answer, asked.answer).and(same_marks(
        &mut t,
        Call::InterpOne,
        marks,
        asked.marks,
    ));
    told(rt, s, case, name)
}

pub fn zeros() -> [f64; 8192]
    ensures { 8192 ≡ length result }
{
    [0.0; 8192]
}

// 0, 1, 2, ..
fn rising() -> [f64; 4096]
    ensures { 4096 ≡ length result }
{
    let mut out = [0.0; 4096];
    let mut x = 0.0;
    for entry in out.iter_mut() {
        *entry = x;
        x += 1.0;
    }
    out
}

// The same of a regular grid with so many values.
pub fn regular_refused(
    rt: &impl Print,
    s: &mut Score,
    n: usize,
    counts: [usize; 3],
    steps: [f64; 2],
    values: usize,
    check: Check,
    axis: usize,
    name: &str,
) -> io::Result<()> {
    let g = regular(n, counts[0], counts[1], counts[2], steps[0], steps[1]);
    let zeros = zeros();
    refused(rt, s, g, &[], part(&zeros, values), check, axis, name)
}

// And of a rectilinear grid with so many entries in its joined axes.
pub fn rectilinear_refused(
    rt: &impl Print,
    s: &mut Score,
    n: usize,
    counts: [usize; 3],
    entries: usize,
    values: usize,
    check: Check,
    axis: usize,
    name: &str,
) -> io::Result<()> {
    let g = rectilinear(n, counts[0], counts[1], counts[2]);
    let zeros = zeros();
    let vals = part(&zeros, values);
    refused(rt, s, g, part(&zeros, entries), vals, check, axis, name)
}

// One axis is taken.
pub fn regular_taken(rt: &impl Print, s: &mut Score, count: usize, name: &str) -> io::Result<()> {
    let g = regular(1, count, 0, 0, 1.0, 1.0);
    let zeros = zeros();
    taken(rt, s, g, &[], part(&zeros, count), name)
}

pub fn rectilinear_taken(
    rt: &impl Print,
    s: &mut Score,
    count: usize,
    name: &str,
) -> io::Result<()> {
    let g = rectilinear(1, count, 0, 0);
    let rising = rising();
    let entries = part(&rising, count);
    taken(rt, s, g, entries, entries, name)
}

// Refusals 5, 6 and 10, on two axes of four entries.
pub fn rectilinear_refused_order(
    rt: &impl Print,
    s: &mut Score,
    entries: [f64; 8],
    check: Check,
    axis: usize,
    name: &str,
) -> io::Result<()> {
    let g = rectilinear(2, 4, 4, 0);
    refused(rt, s, g, &entries, &[0.0; 16], check, axis, name)
}
