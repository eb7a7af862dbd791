// f32: written by tools/width from crates/cases/src/main.rt; what has no float is called there.
// Runs the cases of clause 9.2, each refusal with its place, and what is easily missed.
// One line for each case, and how many agree.
#![tactic(auto)]

use cases_calls::{ABOVE, NEITHER, Score, placed, told, told_all};
use cases_calls_f32::{
    answer_of, answered, cubic, held, kept, not_placed, rectilinear, refused_batch, regular,
    regular_from, with_buffers, zeros,
};
use cases_marks_f32::marked_cases;
use cases_missing_f32::missing_cases;
use cases_refusals_f32::refusals;
use harness_batches_f32::{marked, run_batches};
use harness_corpus_f32::{Group, part, refusal};
use harness_with_grad_f32::same_single;
use harness_words::Tally;
use multicubic::{Check, Place, Saturation};
use std::io;

// The numbers hold on both kinds: at 1.5 3.375, slope 6.25; at 4 as given.
fn cubes_on(
    rt: &impl Print,
    s: &mut Score,
    g: Group,
    value: f32,
    slope: f32,
    at_1_5: &str,
    at_4: &str,
) -> io::Result<()> {
    let x = [0.0, 1.0, 2.0, 3.0];
    let v = [0.0, 1.0, 8.0, 27.0];
    answered(
        rt,
        s,
        g,
        &x,
        &v,
        1.5,
        placed(0, Saturation::None),
        3.375,
        6.25,
        at_1_5,
    )?;
    answered(
        rt,
        s,
        g,
        &x,
        &v,
        4.0,
        placed(0, Saturation::OutsideHigh),
        value,
        slope,
        at_4,
    )
}

// Linearised at 4: 52, slope 25. Cubic: 58, and the slope 37, which the clause does not give.
fn cubes(rt: &impl Print, s: &mut Score) -> io::Result<()> {
    let g = regular(1, 4, 0, 0, 1.0, 1.0);
    let h = rectilinear(1, 4, 0, 0);
    let v = 52.0;
    let d = 25.0;
    let cubic_v = 58.0;
    let cubic_d = 37.0;
    cubes_on(rt, s, g, v, d, "regular, at 1.5", "regular, at 4")?;
    cubes_on(
        rt,
        s,
        cubic(g),
        cubic_v,
        cubic_d,
        "regular, at 1.5, cubic",
        "regular, at 4, cubic",
    )?;
    cubes_on(rt, s, h, v, d, "rectilinear, at 1.5", "rectilinear, at 4")?;
    cubes_on(
        rt,
        s,
        cubic(h),
        cubic_v,
        cubic_d,
        "rectilinear, at 1.5, cubic",
        "rectilinear, at 4, cubic",
    )
}

// Values that are NaN, at a query that is a number.
fn not_numbers(rt: &impl Print, s: &mut Score) -> io::Result<()> {
    let vals = [f32::NAN; 4];
    let entries = [0.0, 1.0, 2.0, 3.0];
    let nan = f32::NAN;
    answered(
        rt,
        s,
        regular(1, 4, 0, 0, 1.0, 1.0),
        &entries,
        &vals,
        1.5,
        placed(0, Saturation::None),
        nan,
        nan,
        "regular, all values NaN",
    )?;
    answered(
        rt,
        s,
        rectilinear(1, 4, 0, 0),
        &entries,
        &vals,
        1.5,
        placed(0, Saturation::None),
        nan,
        nan,
        "rectilinear, all values NaN",
    )
}

// Refusal 7: too many or too few queries, and a buffer that the axis count does not divide.
fn regular_batches(rt: &impl Print, s: &mut Score, z: &[f32]) -> io::Result<()> {
    let g = with_buffers(regular(1, 4, 0, 0, 1.0, 1.0), 2, 2);
    let wide = with_buffers(regular(2, 4, 4, 0, 1.0, 1.0), 3, 3);
    let vals = part(z, 4);
    refused_batch(rt, s, g, z, vals, part(z, 3), "regular, 7: 3 queries for 2")?;
    refused_batch(rt, s, g, z, vals, part(z, 1), "regular, 7: 1 query for 2")?;
    refused_batch(
        rt,
        s,
        wide,
        z,
        part(z, 16),
        vals,
        "regular, 7: 3 entries on 2 axes",
    )
}

fn rectilinear_batches(rt: &impl Print, s: &mut Score, z: &[f32]) -> io::Result<()> {
    let g = with_buffers(rectilinear(1, 4, 0, 0), 2, 2);
    let wide = with_buffers(rectilinear(2, 4, 4, 0), 3, 3);
    let entries = [0.0, 1.0, 2.0, 3.0, 0.0, 1.0, 2.0, 3.0];
    let four = part(&entries, 4);
    let vals = part(z, 4);
    refused_batch(
        rt,
        s,
        g,
        four,
        vals,
        part(z, 3),
        "rectilinear, 7: 3 queries for 2",
    )?;
    refused_batch(
        rt,
        s,
        g,
        four,
        vals,
        part(z, 1),
        "rectilinear, 7: 1 query for 2",
    )?;
    refused_batch(
        rt,
        s,
        wide,
        &entries,
        part(z, 16),
        vals,
        "rectilinear, 7: 3 entries on 2 axes",
    )
}

// Refusal 8 of a single query, on the lower of two such axes.
fn unplaceable(rt: &impl Print, s: &mut Score, z: &[f32]) -> io::Result<()> {
    let g = regular(3, 4, 4, 4, 1.0, 1.0);
    let x = [1.5, 9223372036854775808.0, f32::INFINITY, 1.5];
    let e = refusal(Check::NoPlace, 1);
    let case = same_single(&mut Tally::default(), g, z, part(z, 64), x, e);
    told(rt, s, case, "regular, 8: axis 1 of a single query")
}

// The greatest number below 2^63.
fn below_63() -> f32 {
    9223371487098961920.0
}

// The bounds of refusal 8: 2^63 is refused; the number below it is the last that is placed, and -2^63 is still placed.
fn bounds(rt: &impl Print, s: &mut Score) -> io::Result<()> {
    let g = regular(1, 4, 0, 0, 1.0, 1.0);
    let x = [0.0, 1.0, 2.0, 3.0];
    let zero = [0.0; 4];
    let far = 9223372036854775808.0;
    let low = -9223372036854775808.0;
    let one = 1.0;
    not_placed(rt, s, g, &x, &x, far, Check::NoPlace, "regular, 8: 2^63")?;
    answered(
        rt,
        s,
        g,
        &x,
        &zero,
        below_63(),
        placed(0, Saturation::OutsideHigh),
        0.0,
        0.0,
        "regular, below 2^63",
    )?;
    answered(
        rt,
        s,
        g,
        &x,
        &x,
        -far,
        placed(0, Saturation::OutsideLow),
        low,
        one,
        "regular, -2^63",
    )
}

// Refusal 8 in the middle of a batch: the earlier query's entries hold its answers, all others their contents.
fn stopped(rt: &impl Print, s: &mut Score, z: &[f32]) -> io::Result<()> {
    let vals = [
        0.0, 0.0, 0.0, 0.0, 1.0, 1.0, 1.0, 1.0, 8.0, 8.0, 8.0, 8.0, 27.0, 27.0, 27.0, 27.0,
    ];
    let far = 9223372036854775808.0;
    let queries = [1.5, 1.5, far, 1.5, far, 1.5];
    let g = with_buffers(regular(2, 4, 4, 0, 1.0, 1.0), 3, 6);
    let mut values = marked();
    values[0] = 3.375;
    let mut slopes = marked();
    slopes[0] = 6.25;
    slopes[3] = 0.0;
    let outcome = Err(Check::NoPlace.at(1, 1));
    let mut t = Tally::default();
    let case = run_batches(&mut t, g, z, &vals, &queries, outcome, &values, &slopes);
    told(rt, s, case, "regular, 8: query 1 of a batch, axis 1")
}

// A query with the edge held, on nodes 0, 1, 2 .. of both kinds. Its places on the two may differ.
fn held_at(
    rt: &impl Print,
    s: &mut Score,
    vals: &[f32],
    x: f32,
    places: [Place; 2],
    value: f32,
    slope: f32,
    on_regular: &str,
    on_rectilinear: &str,
) -> io::Result<()> {
    let count = vals.len();
    let nodes = [0.0, 1.0, 2.0, 3.0, 4.0, 5.0];
    let entries = part(&nodes, count);
    let g = held(regular(1, count, 0, 0, 1.0, 1.0));
    let h = held(rectilinear(1, count, 0, 0));
    answered(
        rt, s, g, entries, vals, x, places[0], value, slope, on_regular,
    )?;
    answered(
        rt,
        s,
        h,
        entries,
        vals,
        x,
        places[1],
        value,
        slope,
        on_rectilinear,
    )
}

// Past an end: the end's value, and no slope. The last node is OutsideHigh on a regular axis and InsideHigh on a rectilinear one, the first
// InsideLow and OutsideLow.
fn held_past(rt: &impl Print, s: &mut Score) -> io::Result<()> {
    let v = [0.0, 1.0, 8.0, 27.0];
    let far = f32::INFINITY;
    let last = 27.0;
    held_at(
        rt,
        s,
        &v,
        4.0,
        [
            placed(0, Saturation::OutsideHigh),
            placed(0, Saturation::InsideHigh),
        ],
        last,
        0.0,
        "regular, held: at 4",
        "rectilinear, held: at 4",
    )?;
    held_at(
        rt,
        s,
        &v,
        far,
        [
            placed(0, Saturation::OutsideHigh),
            placed(0, Saturation::InsideHigh),
        ],
        last,
        0.0,
        "regular, held: at +inf",
        "rectilinear, held: at +inf",
    )?;
    held_at(
        rt,
        s,
        &v,
        -1.0,
        [
            placed(0, Saturation::InsideLow),
            placed(0, Saturation::OutsideLow),
        ],
        0.0,
        0.0,
        "regular, held: at -1",
        "rectilinear, held: at -1",
    )?;
    held_at(
        rt,
        s,
        &v,
        -far,
        [
            placed(0, Saturation::InsideLow),
            placed(0, Saturation::OutsideLow),
        ],
        0.0,
        0.0,
        "regular, held: at -inf",
        "rectilinear, held: at -inf",
    )
}

// At an end the slope is the cubic's, 25 and -2, and -0 is at the node 0, not below it. Between the nodes all is as in the cubic.
fn held_within(rt: &impl Print, s: &mut Score) -> io::Result<()> {
    let v = [0.0, 1.0, 8.0, 27.0];
    let last = 27.0;
    let up = 25.0;
    let down = -2.0;
    held_at(
        rt,
        s,
        &v,
        3.0,
        [
            placed(0, Saturation::OutsideHigh),
            placed(0, Saturation::InsideHigh),
        ],
        last,
        up,
        "regular, held: at 3",
        "rectilinear, held: at 3",
    )?;
    held_at(
        rt,
        s,
        &v,
        0.0,
        [
            placed(0, Saturation::InsideLow),
            placed(0, Saturation::OutsideLow),
        ],
        0.0,
        down,
        "regular, held: at 0",
        "rectilinear, held: at 0",
    )?;
    held_at(
        rt,
        s,
        &v,
        -0.0,
        [
            placed(0, Saturation::InsideLow),
            placed(0, Saturation::OutsideLow),
        ],
        0.0,
        down,
        "regular, held: at -0",
        "rectilinear, held: at -0",
    )?;
    held_at(
        rt,
        s,
        &v,
        1.5,
        [placed(0, Saturation::None), placed(0, Saturation::None)],
        3.375,
        6.25,
        "regular, held: at 1.5",
        "rectilinear, held: at 1.5",
    )
}

// The ends of a longer axis, 125 and 0: the last block starts at node 2.
fn held_longer(rt: &impl Print, s: &mut Score) -> io::Result<()> {
    let v = [0.0, 1.0, 8.0, 27.0, 64.0, 125.0];
    held_at(
        rt,
        s,
        &v,
        9.0,
        [
            placed(2, Saturation::OutsideHigh),
            placed(2, Saturation::InsideHigh),
        ],
        125.0,
        0.0,
        "regular, held: 6 nodes, at 9",
        "rectilinear, held: 6 nodes, at 9",
    )?;
    held_at(
        rt,
        s,
        &v,
        -5.0,
        [
            placed(0, Saturation::InsideLow),
            placed(0, Saturation::OutsideLow),
        ],
        0.0,
        0.0,
        "regular, held: 6 nodes, at -5",
        "rectilinear, held: 6 nodes, at -5",
    )
}

// What only the sign of a zero shows. The four +0 of a slope are multiplied, so values below 0 give -0. The weights are the cubic's: a stored -0
// comes out as +0, and with the straight line's it would stay.
fn held_zeros(rt: &impl Print, s: &mut Score) -> io::Result<()> {
    let below = [-1.0, -2.0, -3.0, -4.0];
    let high = [-1.0, -1.0, 8.0, -0.0];
    let low = [-0.0, 8.0, -1.0, -1.0];
    held_at(
        rt,
        s,
        &below,
        9.0,
        [
            placed(0, Saturation::OutsideHigh),
            placed(0, Saturation::InsideHigh),
        ],
        -4.0,
        -0.0,
        "regular, held: values below 0",
        "rectilinear, held: values below 0",
    )?;
    held_at(
        rt,
        s,
        &high,
        9.0,
        [
            placed(0, Saturation::OutsideHigh),
            placed(0, Saturation::InsideHigh),
        ],
        0.0,
        0.0,
        "regular, held: last value -0",
        "rectilinear, held: last value -0",
    )?;
    held_at(
        rt,
        s,
        &low,
        -5.0,
        [
            placed(0, Saturation::InsideLow),
            placed(0, Saturation::OutsideLow),
        ],
        0.0,
        0.0,
        "regular, held: first value -0",
        "rectilinear, held: first value -0",
    )
}

// 2^63 is past an end, and no longer refused.
fn held_far(rt: &impl Print, s: &mut Score) -> io::Result<()> {
    let x = [0.0, 1.0, 2.0, 3.0];
    let v = [0.0, 1.0, 8.0, 27.0];
    let far = 9223372036854775808.0;
    let g = regular(1, 4, 0, 0, 1.0, 1.0);
    not_placed(
        rt,
        s,
        cubic(g),
        &x,
        &v,
        far,
        Check::NoPlace,
        "regular, 8: 2^63, cubic",
    )?;
    held_at(
        rt,
        s,
        &v,
        far,
        [
            placed(0, Saturation::OutsideHigh),
            placed(0, Saturation::InsideHigh),
        ],
        27.0,
        0.0,
        "regular, held: at 2^63",
        "rectilinear, held: at 2^63",
    )
}

// From +inf on every node is +inf, and no quotient is a number. By steps of +inf node 0 is NaN and the last +inf, so no query is past an end: 1
// is placed by its quotient 0, and its t is NaN.
fn held_infinite(rt: &impl Print, s: &mut Score) -> io::Result<()> {
    let v = [0.0, 1.0, 8.0, 27.0];
    let far = f32::INFINITY;
    let nan = f32::NAN;
    let g = held(regular_from(far, 1.0));
    let h = held(regular_from(0.0, far));
    not_placed(
        rt,
        s,
        g,
        &v,
        &v,
        0.0,
        Check::NoPlace,
        "regular, held: start +inf, at 0",
    )?;
    not_placed(
        rt,
        s,
        g,
        &v,
        &v,
        far,
        Check::NoPlace,
        "regular, held: start +inf, at +inf",
    )?;
    answered(
        rt,
        s,
        h,
        &v,
        &v,
        1.0,
        placed(0, Saturation::InsideLow),
        nan,
        nan,
        "regular, held: step +inf, at 1",
    )?;
    not_placed(
        rt,
        s,
        h,
        &v,
        &v,
        far,
        Check::NoPlace,
        "regular, held: step +inf, at +inf",
    )
}

// Queries past the end of axis 1, past none, and past the end of axis 0. The values are cubes along axis 0, times 1 to 4 along axis 1, and so are
// the answers: of the cubes 3.375 and the slope 6.25 at 1.5, or 27 at the end; of 1 to 4 2.5 and the slope 1 at 1.5, or 4 at the end.
fn held_axes_on(
    rt: &impl Print,
    s: &mut Score,
    g: Group,
    axes: &[f32],
    end: Place,
    name: &str,
) -> io::Result<()> {
    let vals = [
        0.0, 0.0, 0.0, 0.0, 1.0, 2.0, 3.0, 4.0, 8.0, 16.0, 24.0, 32.0, 27.0, 54.0, 81.0, 108.0,
    ];
    let mut values = marked();
    values[0] = 13.5;
    values[1] = 8.4375;
    values[2] = 67.5;
    let mut slopes = marked();
    slopes[0] = 25.0;
    slopes[1] = 15.625;
    slopes[2] = 0.0;
    slopes[3] = 0.0;
    slopes[4] = 3.375;
    slopes[5] = 27.0;
    let none = placed(0, Saturation::None);
    let mut t = Tally::default();
    let e = answer_of([none, end], values[0], [slopes[0], slopes[3]]);
    let past_1 = same_single(&mut t, g, axes, &vals, [1.5, 9.0, 0.0, 0.0], e);
    let e = answer_of([none, none], values[1], [slopes[1], slopes[4]]);
    let inside = same_single(&mut t, g, axes, &vals, [1.5, 1.5, 0.0, 0.0], e);
    let e = answer_of([end, none], values[2], [slopes[2], slopes[5]]);
    let past_0 = same_single(&mut t, g, axes, &vals, [9.0, 1.5, 0.0, 0.0], e);
    let three = with_buffers(g, 3, 6);
    let queries = [1.5, 1.5, 9.0, 9.0, 1.5, 1.5];
    let batches = run_batches(
        &mut t,
        three,
        axes,
        &vals,
        &queries,
        Ok(()),
        &values,
        &slopes,
    );
    told(rt, s, past_1.and(inside).and(past_0).and(batches), name)
}

fn held_axes(rt: &impl Print, s: &mut Score) -> io::Result<()> {
    let axes = [0.0, 1.0, 2.0, 3.0, 0.0, 1.0, 2.0, 3.0];
    let g = held(regular(2, 4, 4, 0, 1.0, 1.0));
    let h = held(rectilinear(2, 4, 4, 0));
    held_axes_on(
        rt,
        s,
        g,
        &axes,
        placed(0, Saturation::OutsideHigh),
        "regular, held: past one of 2 axes",
    )?;
    held_axes_on(
        rt,
        s,
        h,
        &axes,
        placed(0, Saturation::InsideHigh),
        "rectilinear, held: past one of 2 axes",
    )
}

fn held_edge(rt: &impl Print, s: &mut Score) -> io::Result<()> {
    held_past(rt, s)?;
    held_within(rt, s)?;
    held_longer(rt, s)?;
    held_zeros(rt, s)?;
    held_far(rt, s)?;
    held_infinite(rt, s)?;
    held_axes(rt, s)
}

// A grid that a caller keeps: the value at 1.5, that of the last node past it, marked, and the refusals of one whose count or axis count was altered
// by hand, which have no mark.
fn kept_on(
    rt: &impl Print,
    s: &mut Score,
    g: Group,
    short: Group,
    wide: Group,
    at_1_5: &str,
    held_at_9: &str,
    count: &str,
    axes: &str,
) -> io::Result<()> {
    let x = [0.0, 1.0, 2.0, 3.0];
    let v = [0.0, 1.0, 8.0, 27.0];
    kept(rt, s, g, &x, &v, 1.5, Ok(3.375), NEITHER, at_1_5)?;
    kept(rt, s, held(g), &x, &v, 9.0, Ok(27.0), ABOVE, held_at_9)?;
    kept(
        rt,
        s,
        short,
        part(&x, 3),
        part(&v, 3),
        9.0,
        Err(Check::TooFew.at(0, 0)),
        NEITHER,
        count,
    )?;
    kept(
        rt,
        s,
        wide,
        &x,
        &v,
        9.0,
        Err(Check::AxisCount.at(0, 0)),
        NEITHER,
        axes,
    )
}

fn kept_grids(rt: &impl Print, s: &mut Score) -> io::Result<()> {
    kept_on(
        rt,
        s,
        regular(1, 4, 0, 0, 1.0, 1.0),
        regular(1, 3, 0, 0, 1.0, 1.0),
        regular(5, 4, 0, 0, 1.0, 1.0),
        "regular, kept: at 1.5",
        "regular, kept: held at 9",
        "regular, kept: 3 entries",
        "regular, kept: 5 axes",
    )?;
    kept_on(
        rt,
        s,
        rectilinear(1, 4, 0, 0),
        rectilinear(1, 3, 0, 0),
        rectilinear(5, 4, 0, 0),
        "rectilinear, kept: at 1.5",
        "rectilinear, kept: held at 9",
        "rectilinear, kept: 3 entries",
        "rectilinear, kept: 5 axes",
    )
}

fn all(rt: &impl Print, s: &mut Score, z: &[f32]) -> io::Result<()> {
    cubes(rt, s)?;
    not_numbers(rt, s)?;
    refusals(rt, s)?;
    regular_batches(rt, s, z)?;
    rectilinear_batches(rt, s, z)?;
    unplaceable(rt, s, z)?;
    bounds(rt, s)?;
    stopped(rt, s, z)?;
    held_edge(rt, s)?;
    kept_grids(rt, s)?;
    marked_cases(rt, s)?;
    missing_cases(rt, s)
}

fn main(rt: HostRuntime) -> io::Result<()> {
    let zeros = zeros();
    let mut score = Score::default();
    all(&rt, &mut score, &zeros)?;
    told_all(&rt, score)
}
