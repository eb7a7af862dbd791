// f32: written by tools/width from crates/cases_with_grad/src/lib.rt; what has no float is called there.
// The cases of clauses 6.3 and 6.4: value and gradient in one call, the number of its sums, and its marks.
#![tactic(auto)]

ghost use Rattle.std.specs.Prelude.{◌≡◌, length};

use cases_calls::{ABOVE, BELOW, NEITHER, Score, placed, same_marks, told};
use cases_calls_f32::{cubic, held, rectilinear, regular};
use harness_corpus::{Expected, ExpectedPlace, columns};
use harness_corpus_f32::{Group, part, refusal};
use harness_with_grad_f32::{call_interp_one_with_grad, same_single, same_with_grad};
use harness_words::{Call, Difference, Tally};
use multicubic::{Check, Marks, Saturation};
use std::io;

// 0, 1, 4, 9, ..
fn squares() -> [f32; 256]
    ensures { 256 ≡ length result }
{
    let mut out = [0.0; 256];
    let mut x = 0.0;
    for entry in out.iter_mut() {
        *entry = x * x;
        x += 1.0;
    }
    out
}

// What a query is answered: the classes of its places, all at 0, its value, its gradient.
fn answer_to(classes: [Saturation; 4], value: f32, gradient: [f32; 4]) -> Expected<f32> {
    Expected {
        value: Ok(value),
        places: classes.map(|class| ExpectedPlace::of(placed(0, class))),
        gradient,
    }
}

// The separate calls and the one for both give the answer, and the latter these marks and so many sums.
fn same_both(
    t: &mut Tally,
    g: Group,
    axes: &[f32],
    vals: &[f32],
    x: [f32; 4],
    e: Expected<f32>,
    marks: [Marks; 4],
    sums: u64,
) -> Result<(), Difference> {
    same_single(t, g, axes, vals, x, e)?;
    let both = call_interp_one_with_grad(g, axes, vals, x);
    same_with_grad(t, e, sums, both)?;
    same_marks(t, Call::InterpOneWithGrad, marks, both.marks)
}

// In all three settings, without a mark.
fn in_each(
    rt: &impl Print,
    s: &mut Score,
    g: Group,
    axes: &[f32],
    vals: &[f32],
    x: [f32; 4],
    e: Expected<f32>,
    sums: u64,
    name: &str,
) -> io::Result<()> {
    let mut t = Tally::default();
    let none = [NEITHER; 4];
    let case = same_both(&mut t, g, axes, vals, x, e, none, sums)
        .and(same_both(&mut t, cubic(g), axes, vals, x, e, none, sums))
        .and(same_both(&mut t, held(g), axes, vals, x, e, none, sums));
    told(rt, s, case, name)
}

// The joined axes of up to four axes of four entries: axis 1 goes to 6, the others to 3.
fn joined() -> [f32; 16]
    ensures { 16 ≡ length result }
{
    [
        0.0, 1.0, 2.0, 3.0, 0.0, 2.0, 4.0, 6.0, 0.0, 1.0, 2.0, 3.0, 0.0, 1.0, 2.0, 3.0,
    ]
}

// Each value is the square of its index, and so are the answers between the nodes: at 1.5, 2.5, 1.75, 1.125 the index is 1.5 on one axis, 7.25 on
// two, 30.75 on three, 124.125 on four.
fn on_axes(
    rt: &impl Print,
    s: &mut Score,
    g: Group,
    values: usize,
    value: f32,
    gradient: [f32; 4],
    sums: u64,
    name: &str,
) -> io::Result<()> {
    let axes = joined();
    let squares = squares();
    let entries = part(&axes, columns(g.n, 4));
    let vals = part(&squares, values);
    let x = [1.5, 2.5, 1.75, 1.125];
    let e = answer_to([Saturation::None; 4], value, gradient);
    in_each(rt, s, g, entries, vals, x, e, sums, name)
}

fn on_each_count(
    rt: &impl Print,
    s: &mut Score,
    one: Group,
    two: Group,
    three: Group,
    four: Group,
    on_one: &str,
    on_two: &str,
    on_three: &str,
    on_four: &str,
) -> io::Result<()> {
    on_axes(rt, s, one, 4, 2.25, [3.0, 0.0, 0.0, 0.0], 2, on_one)?;
    on_axes(rt, s, two, 16, 52.5625, [58.0, 7.25, 0.0, 0.0], 11, on_two)?;
    on_axes(
        rt,
        s,
        three,
        64,
        945.5625,
        [984.0, 123.0, 61.5, 0.0],
        48,
        on_three,
    )?;
    on_axes(
        rt,
        s,
        four,
        256,
        15407.015625,
        [15888.0, 1986.0, 993.0, 248.25],
        197,
        on_four,
    )
}

fn counted(rt: &impl Print, s: &mut Score) -> io::Result<()> {
    on_each_count(
        rt,
        s,
        regular(1, 4, 4, 4, 1.0, 2.0),
        regular(2, 4, 4, 4, 1.0, 2.0),
        regular(3, 4, 4, 4, 1.0, 2.0),
        regular(4, 4, 4, 4, 1.0, 2.0),
        "regular, both: 1 axis, 2 sums",
        "regular, both: 2 axes, 11 sums",
        "regular, both: 3 axes, 48 sums",
        "regular, both: 4 axes, 197 sums",
    )?;
    on_each_count(
        rt,
        s,
        rectilinear(1, 4, 4, 4),
        rectilinear(2, 4, 4, 4),
        rectilinear(3, 4, 4, 4),
        rectilinear(4, 4, 4, 4),
        "rectilinear, both: 1 axis, 2 sums",
        "rectilinear, both: 2 axes, 11 sums",
        "rectilinear, both: 3 axes, 48 sums",
        "rectilinear, both: 4 axes, 197 sums",
    )
}

// A refusal on axis 1 of two, axis 0 being past its end: no mark, no sum, four +0 for the gradient.
fn refused_on(
    rt: &impl Print,
    s: &mut Score,
    g: Group,
    short: Group,
    by_4: &str,
    by_9: &str,
) -> io::Result<()> {
    let axes = joined();
    let squares = squares();
    let none = f32::NAN;
    in_each(
        rt,
        s,
        short,
        part(&axes, 7),
        part(&squares, 12),
        [-0.5, 2.5, 0.0, 0.0],
        refusal(Check::TooFew, 1),
        0,
        by_4,
    )?;
    in_each(
        rt,
        s,
        g,
        part(&axes, 8),
        part(&squares, 16),
        [-0.5, none, 0.0, 0.0],
        refusal(Check::NoNumber, 1),
        0,
        by_9,
    )
}

// 2^63 steps have no place on a regular axis, unless the edge is held.
fn unplaced(rt: &impl Print, s: &mut Score) -> io::Result<()> {
    let axes = joined();
    let squares = squares();
    let entries = part(&axes, 8);
    let vals = part(&squares, 16);
    let g = regular(2, 4, 4, 4, 1.0, 1.0);
    let x = [-0.5, 9223372036854775808.0, 0.0, 0.0];
    let e = refusal(Check::NoPlace, 1);
    let mut t = Tally::default();
    let none = [NEITHER; 4];
    let case = same_both(&mut t, g, entries, vals, x, e, none, 0).and(same_both(
        &mut t,
        cubic(g),
        entries,
        vals,
        x,
        e,
        none,
        0,
    ));
    told(rt, s, case, "regular, both: refused by 8 on axis 1")
}

fn refused(rt: &impl Print, s: &mut Score) -> io::Result<()> {
    refused_on(
        rt,
        s,
        regular(2, 4, 4, 4, 1.0, 2.0),
        regular(2, 4, 3, 4, 1.0, 2.0),
        "regular, both: refused by 4 on axis 1",
        "regular, both: refused by 9 on axis 1",
    )?;
    unplaced(rt, s)?;
    refused_on(
        rt,
        s,
        rectilinear(2, 4, 4, 4),
        rectilinear(2, 4, 3, 4),
        "rectilinear, both: refused by 4 on axis 1",
        "rectilinear, both: refused by 9 on axis 1",
    )
}

// A query to the squares with the edge held, past the ends that the marks say.
fn held_past(
    rt: &impl Print,
    s: &mut Score,
    g: Group,
    values: usize,
    x: [f32; 4],
    e: Expected<f32>,
    marks: [Marks; 4],
    sums: u64,
    name: &str,
) -> io::Result<()> {
    let axes = joined();
    let squares = squares();
    let entries = part(&axes, columns(g.n, 4));
    let vals = part(&squares, values);
    let mut t = Tally::default();
    let case = same_both(&mut t, held(g), entries, vals, x, e, marks, sums);
    told(rt, s, case, name)
}

// The component of a replaced axis is a sum of four +0 times values: +0 of values that are above 0. The indices are 13.25, 6 and 213.5. A last node
// has the class `high`, a first one the class `low`.
fn held_several(
    rt: &impl Print,
    s: &mut Score,
    two: Group,
    four: Group,
    low: Saturation,
    high: Saturation,
    on_0: &str,
    on_1: &str,
    on_0_and_2: &str,
) -> io::Result<()> {
    held_past(
        rt,
        s,
        two,
        16,
        [9.0, 2.5, 0.0, 0.0],
        answer_to(
            [high, Saturation::None, Saturation::None, Saturation::None],
            175.5625,
            [0.0, 13.25, 0.0, 0.0],
        ),
        [ABOVE, NEITHER, NEITHER, NEITHER],
        11,
        on_0,
    )?;
    held_past(
        rt,
        s,
        two,
        16,
        [1.5, -5.0, 0.0, 0.0],
        answer_to(
            [Saturation::None, low, Saturation::None, Saturation::None],
            36.0,
            [48.0, 0.0, 0.0, 0.0],
        ),
        [NEITHER, BELOW, NEITHER, NEITHER],
        11,
        on_1,
    )?;
    held_past(
        rt,
        s,
        four,
        256,
        [9.0, 2.5, -1.0, 1.5],
        answer_to(
            [high, Saturation::None, low, Saturation::None],
            45582.25,
            [0.0, 3416.0, 0.0, 427.0],
        ),
        [ABOVE, NEITHER, BELOW, NEITHER],
        197,
        on_0_and_2,
    )
}

// It is -0 of values that are all below 0, and a NaN where one of them is infinite.
fn held_signs(
    rt: &impl Print,
    s: &mut Score,
    g: Group,
    high: Saturation,
    below: &str,
    infinite: &str,
) -> io::Result<()> {
    let axes = joined();
    let entries = part(&axes, 4);
    let x = [9.0, 0.0, 0.0, 0.0];
    let classes = [high, Saturation::None, Saturation::None, Saturation::None];
    let marks = [ABOVE, NEITHER, NEITHER, NEITHER];
    let far = f32::INFINITY;
    let e = answer_to(classes, -4.0, [-0.0, 0.0, 0.0, 0.0]);
    let v = [-1.0, -2.0, -3.0, -4.0];
    let case = same_both(&mut Tally::default(), held(g), entries, &v, x, e, marks, 2);
    told(rt, s, case, below)?;
    let e = answer_to(classes, far, [f32::NAN, 0.0, 0.0, 0.0]);
    let v = [1.0, 2.0, 3.0, far];
    let case = same_both(&mut Tally::default(), held(g), entries, &v, x, e, marks, 2);
    told(rt, s, case, infinite)
}

// At its last node a regular axis is OutsideHigh and a rectilinear one InsideHigh, at its first InsideLow and OutsideLow.
fn held_edge(rt: &impl Print, s: &mut Score) -> io::Result<()> {
    held_several(
        rt,
        s,
        regular(2, 4, 4, 4, 1.0, 2.0),
        regular(4, 4, 4, 4, 1.0, 2.0),
        Saturation::InsideLow,
        Saturation::OutsideHigh,
        "regular, both, held: past axis 0",
        "regular, both, held: past axis 1",
        "regular, both, held: past axes 0 and 2 of 4",
    )?;
    held_several(
        rt,
        s,
        rectilinear(2, 4, 4, 4),
        rectilinear(4, 4, 4, 4),
        Saturation::OutsideLow,
        Saturation::InsideHigh,
        "rectilinear, both, held: past axis 0",
        "rectilinear, both, held: past axis 1",
        "rectilinear, both, held: past axes 0 and 2 of 4",
    )?;
    held_signs(
        rt,
        s,
        regular(1, 4, 4, 4, 1.0, 2.0),
        Saturation::OutsideHigh,
        "regular, both, held: values below 0",
        "regular, both, held: last value +inf",
    )?;
    held_signs(
        rt,
        s,
        rectilinear(1, 4, 4, 4),
        Saturation::InsideHigh,
        "rectilinear, both, held: values below 0",
        "rectilinear, both, held: last value +inf",
    )
}

pub fn with_grad_cases(rt: &impl Print, s: &mut Score) -> io::Result<()> {
    counted(rt, s)?;
    refused(rt, s)?;
    held_edge(rt, s)
}
