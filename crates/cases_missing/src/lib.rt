// The cases of refusal 9: a query with a coordinate that is no number, alone and in batches, and what is easily missed of its order.
#![tactic(auto)]

use cases_calls::{
    NEITHER, Score, answer_of, cubic, held, kept, not_placed, placed, rectilinear, refused_batch,
    regular, regular_from, told, with_buffers,
};
use harness_batches::{marked, run_batches};
use harness_corpus::{Expected, Group, part, refusal};
use harness_with_grad::same_single;
use harness_words::{Difference, Tally};
use multicubic::{Check, Saturation};
use std::io;

// Values and query all NaN, in every setting.
fn all_nan(rt: &impl Print, s: &mut Score) -> io::Result<()> {
    let x = f64::NAN;
    let vals = [x; 4];
    let nodes = [0.0, 1.0, 2.0, 3.0];
    let g = regular(1, 4, 0, 0, 1.0, 1.0);
    let h = rectilinear(1, 4, 0, 0);
    not_placed(
        rt,
        s,
        g,
        &nodes,
        &vals,
        x,
        Check::NoNumber,
        "regular, values and query NaN",
    )?;
    not_placed(
        rt,
        s,
        cubic(g),
        &nodes,
        &vals,
        x,
        Check::NoNumber,
        "regular, values and query NaN, cubic",
    )?;
    not_placed(
        rt,
        s,
        held(g),
        &nodes,
        &vals,
        x,
        Check::NoNumber,
        "regular, held: values and query NaN",
    )?;
    not_placed(
        rt,
        s,
        h,
        &nodes,
        &vals,
        x,
        Check::NoNumber,
        "rectilinear, values and query NaN",
    )?;
    not_placed(
        rt,
        s,
        cubic(h),
        &nodes,
        &vals,
        x,
        Check::NoNumber,
        "rectilinear, values and query NaN, cubic",
    )?;
    not_placed(
        rt,
        s,
        held(h),
        &nodes,
        &vals,
        x,
        Check::NoNumber,
        "rectilinear, held: values and query NaN",
    )
}

// A kept grid.
fn on_kept(rt: &impl Print, s: &mut Score) -> io::Result<()> {
    let x = f64::NAN;
    let nodes = [0.0, 1.0, 2.0, 3.0];
    let g = regular(1, 4, 0, 0, 1.0, 1.0);
    let h = held(rectilinear(1, 4, 0, 0));
    kept(
        rt,
        s,
        g,
        &nodes,
        &nodes,
        x,
        Err(Check::NoNumber.at(0, 0)),
        NEITHER,
        "regular, kept: at NaN",
    )?;
    kept(
        rt,
        s,
        h,
        &nodes,
        &nodes,
        x,
        Err(Check::NoNumber.at(0, 0)),
        NEITHER,
        "rectilinear, kept: held at NaN",
    )
}

// A quotient that is no number, of a query that is one: 8.
fn quotients(rt: &impl Print, s: &mut Score) -> io::Result<()> {
    let v = [0.0, 1.0, 8.0, 27.0];
    let far = f64::INFINITY;
    let none = f64::NAN;
    let g = cubic(regular_from(far, 1.0));
    let h = cubic(regular_from(none, 1.0));
    let k = cubic(regular_from(0.0, far));
    not_placed(
        rt,
        s,
        g,
        &v,
        &v,
        far,
        Check::NoPlace,
        "regular, 8: +inf - +inf",
    )?;
    not_placed(
        rt,
        s,
        h,
        &v,
        &v,
        0.0,
        Check::NoPlace,
        "regular, 8: start NaN, at 0",
    )?;
    not_placed(
        rt,
        s,
        held(h),
        &v,
        &v,
        0.0,
        Check::NoPlace,
        "regular, held, 8: start NaN, at 0",
    )?;
    not_placed(
        rt,
        s,
        k,
        &v,
        &v,
        far,
        Check::NoPlace,
        "regular, 8: +inf / +inf",
    )?;
    not_placed(
        rt,
        s,
        h,
        &v,
        &v,
        none,
        Check::NoNumber,
        "regular, 9: start NaN, at NaN",
    )
}

// A query on two axes of four entries is refused, cubic and straight, and as another where the edge is held.
fn on_two(
    rt: &impl Print,
    s: &mut Score,
    g: Group,
    x: [f64; 4],
    e: Expected<f64>,
    e_held: Expected<f64>,
    name: &str,
) -> io::Result<()> {
    let nodes = [0.0, 1.0, 2.0, 3.0, 0.0, 1.0, 2.0, 3.0];
    let vals = [0.0; 16];
    let mut t = Tally::default();
    let case = same_single(&mut t, g, &nodes, &vals, x, e)
        .and(same_single(&mut t, cubic(g), &nodes, &vals, x, e))
        .and(same_single(&mut t, held(g), &nodes, &vals, x, e_held));
    told(rt, s, case, name)
}

// On each axis 9, then 8, before the next is looked at. Held, 2^63 is no longer unplaceable.
fn in_order(rt: &impl Print, s: &mut Score) -> io::Result<()> {
    let none = f64::NAN;
    let far = 9223372036854775808.0;
    let g = regular(2, 4, 4, 0, 1.0, 1.0);
    let h = rectilinear(2, 4, 4, 0);
    let later = [1.5, none, 0.0, 0.0];
    let far_first = [far, none, 0.0, 0.0];
    let nan_first = [none, far, 0.0, 0.0];
    let both = [none; 4];
    on_two(
        rt,
        s,
        g,
        later,
        refusal(Check::NoNumber, 1),
        refusal(Check::NoNumber, 1),
        "regular, 9: axis 1",
    )?;
    on_two(
        rt,
        s,
        g,
        far_first,
        refusal(Check::NoPlace, 0),
        refusal(Check::NoNumber, 1),
        "regular, 2^63 on axis 0, NaN on axis 1",
    )?;
    on_two(
        rt,
        s,
        g,
        nan_first,
        refusal(Check::NoNumber, 0),
        refusal(Check::NoNumber, 0),
        "regular, NaN on axis 0, 2^63 on axis 1",
    )?;
    on_two(
        rt,
        s,
        g,
        both,
        refusal(Check::NoNumber, 0),
        refusal(Check::NoNumber, 0),
        "regular, 9: NaN on both axes",
    )?;
    on_two(
        rt,
        s,
        h,
        later,
        refusal(Check::NoNumber, 1),
        refusal(Check::NoNumber, 1),
        "rectilinear, 9: axis 1",
    )?;
    on_two(
        rt,
        s,
        h,
        far_first,
        refusal(Check::NoNumber, 1),
        refusal(Check::NoNumber, 1),
        "rectilinear, 2^63 on axis 0, NaN on axis 1",
    )?;
    on_two(
        rt,
        s,
        h,
        nan_first,
        refusal(Check::NoNumber, 0),
        refusal(Check::NoNumber, 0),
        "rectilinear, NaN on axis 0, 2^63 on axis 1",
    )
}

// Past the axis count a NaN is not looked at: the cubes at 1.5.
fn past_the_count(rt: &impl Print, s: &mut Score, g: Group, name: &str) -> io::Result<()> {
    let none = f64::NAN;
    let nodes = [0.0, 1.0, 2.0, 3.0];
    let v = [0.0, 1.0, 8.0, 27.0];
    let places = [placed(0, Saturation::None); 2];
    let e = answer_of(places, 3.375, [6.25, 0.0]);
    let case = same_single(
        &mut Tally::default(),
        g,
        &nodes,
        &v,
        [1.5, none, none, none],
        e,
    );
    told(rt, s, case, name)
}

// A batch of three on two axes is stopped at query 1: the entries of query 0 hold its answers, all others their contents.
fn stopped_by(
    t: &mut Tally,
    g: Group,
    queries: &[f64; 6],
    check: Check,
    axis: usize,
) -> Result<(), Difference> {
    let vals = [
        0.0, 0.0, 0.0, 0.0, 1.0, 1.0, 1.0, 1.0, 8.0, 8.0, 8.0, 8.0, 27.0, 27.0, 27.0, 27.0,
    ];
    let nodes = [0.0, 1.0, 2.0, 3.0, 0.0, 1.0, 2.0, 3.0];
    let mut values = marked();
    values[0] = 3.375;
    let mut slopes = marked();
    slopes[0] = 6.25;
    slopes[3] = 0.0;
    let outcome = Err(check.at(1, axis));
    let three = with_buffers(g, 3, 6);
    run_batches(t, three, &nodes, &vals, queries, outcome, &values, &slopes)
}

// A NaN in the middle; and beside a query that is refused by 8, the lower of the two.
fn in_batches(rt: &impl Print, s: &mut Score) -> io::Result<()> {
    let none = f64::NAN;
    let far = 9223372036854775808.0;
    let g = regular(2, 4, 4, 0, 1.0, 1.0);
    let h = rectilinear(2, 4, 4, 0);
    let middle = [1.5, 1.5, 1.5, 1.5, none, 1.5];
    let eight_nan = [1.5, far, 1.5, 1.5, 1.5, none];
    let nan_eight = [1.5, none, far, 1.5, 1.5, 1.5];
    let mut t = Tally::default();
    let case = stopped_by(&mut t, g, &middle, Check::NoNumber, 1)
        .and(stopped_by(&mut t, cubic(g), &middle, Check::NoNumber, 1))
        .and(stopped_by(&mut t, held(g), &middle, Check::NoNumber, 1));
    told(rt, s, case, "regular, 9: query 1 of a batch, axis 1")?;
    let case = stopped_by(&mut t, h, &middle, Check::NoNumber, 1)
        .and(stopped_by(&mut t, cubic(h), &middle, Check::NoNumber, 1))
        .and(stopped_by(&mut t, held(h), &middle, Check::NoNumber, 1));
    told(rt, s, case, "rectilinear, 9: query 1 of a batch, axis 1")?;
    let case = stopped_by(&mut t, g, &eight_nan, Check::NoPlace, 0);
    told(
        rt,
        s,
        case,
        "regular, 8 in query 1 of a batch, NaN in query 2",
    )?;
    let case = stopped_by(&mut t, g, &nan_eight, Check::NoNumber, 0).and(stopped_by(
        &mut t,
        h,
        &nan_eight,
        Check::NoNumber,
        0,
    ));
    told(rt, s, case, "NaN in query 1 of a batch, 2^63 in query 2")
}

// The checks of the grid and of the buffers come first.
fn after_the_checks(rt: &impl Print, s: &mut Score) -> io::Result<()> {
    let none = f64::NAN;
    let x = [none; 4];
    let four = [none; 4];
    let nodes = [0.0, 1.0, 2.0, 3.0];
    let g = with_buffers(regular(1, 4, 0, 0, 1.0, 1.0), 2, 2);
    let h = with_buffers(rectilinear(1, 4, 0, 0), 2, 2);
    let three = part(&four, 3);
    refused_batch(
        rt,
        s,
        g,
        &nodes,
        &nodes,
        three,
        "regular, 7: 3 queries of NaN for 2",
    )?;
    refused_batch(
        rt,
        s,
        h,
        &nodes,
        &nodes,
        three,
        "rectilinear, 7: 3 queries of NaN for 2",
    )?;
    let flat = regular(1, 4, 0, 0, 0.0, 1.0);
    let e = refusal(Check::NotRising, 0);
    let mut t = Tally::default();
    let case = same_single(&mut t, flat, &nodes, &nodes, x, e).and(same_single(
        &mut t, h, &four, &nodes, x, e,
    ));
    told(rt, s, case, "5 before 9")
}

// All of them.
pub fn missing_cases(rt: &impl Print, s: &mut Score) -> io::Result<()> {
    all_nan(rt, s)?;
    on_kept(rt, s)?;
    quotients(rt, s)?;
    in_order(rt, s)?;
    past_the_count(
        rt,
        s,
        cubic(regular(1, 4, 0, 0, 1.0, 1.0)),
        "regular, NaN past the axis count",
    )?;
    past_the_count(
        rt,
        s,
        held(rectilinear(1, 4, 0, 0)),
        "rectilinear, held: NaN past the axis count",
    )?;
    in_batches(rt, s)?;
    after_the_checks(rt, s)
}
