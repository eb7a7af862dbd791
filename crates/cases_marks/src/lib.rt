// The cases of clause 3.8: the marks of single answers, by each of the four calls.
#![tactic(auto)]

use cases_calls::{
    ABOVE, BELOW, NEITHER, Score, cubic, held, placed, rectilinear, regular, regular_from,
    same_marks, told, zeros,
};
use harness_calls::{call_get_loc, call_interp_one, call_interp_one_grad, same_place};
use harness_corpus::{ExpectedPlace, Group, part};
use harness_with_grad::call_interp_one_with_grad;
use harness_words::{Call, Difference, Part, Tally, bits_of, float_of, number_of};
use multicubic::{Check, Marks, Outcome, Saturation, outcome_of};
use std::io;

// The number of a call's outcome, and its marks.
fn same_of(
    t: &mut Tally,
    call: Call,
    check: Option<Check>,
    outcome: Outcome,
    expected: [Marks; 4],
    found: [Marks; 4],
) -> Result<(), Difference> {
    let number = check.map_or(0, |check| check.number() as u64);
    t.same(call, Part::Number, 0, number, number_of(outcome))?;
    same_marks(t, call, expected, found)
}

// The four single calls are refused by the check, or taken, and give the marks.
fn marked_in(
    t: &mut Tally,
    g: Group,
    axes: &[f64],
    vals: &[f64],
    x: [f64; 4],
    check: Option<Check>,
    marks: [Marks; 4],
) -> Result<(), Difference> {
    let loc = call_get_loc(g, axes, vals, x);
    same_of(t, Call::GetLoc, check, loc.answer.outcome, marks, loc.marks)?;
    let one = call_interp_one(g, axes, vals, x);
    same_of(
        t,
        Call::InterpOne,
        check,
        outcome_of(one.answer),
        marks,
        one.marks,
    )?;
    let grad = call_interp_one_grad(g, axes, vals, x);
    same_of(
        t,
        Call::InterpOneGrad,
        check,
        grad.answer.outcome,
        marks,
        grad.marks,
    )?;
    let both = call_interp_one_with_grad(g, axes, vals, x);
    same_of(
        t,
        Call::InterpOneWithGrad,
        check,
        outcome_of(both.answer),
        marks,
        both.marks,
    )
}

// The same in all three settings.
fn marked(
    rt: &impl Print,
    s: &mut Score,
    g: Group,
    axes: &[f64],
    vals: &[f64],
    x: [f64; 4],
    check: Option<Check>,
    marks: [Marks; 4],
    name: &str,
) -> io::Result<()> {
    let mut t = Tally::default();
    let case = marked_in(&mut t, g, axes, vals, x, check, marks)
        .and(marked_in(&mut t, cubic(g), axes, vals, x, check, marks))
        .and(marked_in(&mut t, held(g), axes, vals, x, check, marks));
    told(rt, s, case, name)
}

// On one axis of five nodes: 0 to 4, or 0, 1, 2, 4, 7. What the query has past it lies past every end, and is not looked at.
fn on_axis(
    rt: &impl Print,
    s: &mut Score,
    g: Group,
    x: f64,
    mark: Marks,
    name: &str,
) -> io::Result<()> {
    let nodes = [0.0, 1.0, 2.0, 4.0, 7.0];
    marked(
        rt,
        s,
        g,
        &nodes,
        &nodes,
        [x, -9.0, 99.0, -9.0],
        None,
        [mark, NEITHER, NEITHER, NEITHER],
        name,
    )
}

// At the end nodes no mark, whatever the class; past them one.
fn on_regular(rt: &impl Print, s: &mut Score) -> io::Result<()> {
    let g = regular(1, 5, 0, 0, 1.0, 1.0);
    on_axis(rt, s, g, -0.5, BELOW, "regular, marks: at -0.5")?;
    on_axis(rt, s, g, 0.0, NEITHER, "regular, marks: at 0")?;
    on_axis(rt, s, g, -0.0, NEITHER, "regular, marks: at -0")?;
    on_axis(rt, s, g, 2.5, NEITHER, "regular, marks: at 2.5")?;
    on_axis(rt, s, g, 4.0, NEITHER, "regular, marks: at 4")?;
    on_axis(rt, s, g, 4.5, ABOVE, "regular, marks: at 4.5")
}

// An infinity has a mark.
fn on_rectilinear(rt: &impl Print, s: &mut Score) -> io::Result<()> {
    let g = rectilinear(1, 5, 0, 0);
    let far = f64::INFINITY;
    on_axis(rt, s, g, -0.5, BELOW, "rectilinear, marks: at -0.5")?;
    on_axis(rt, s, g, 0.0, NEITHER, "rectilinear, marks: at 0")?;
    on_axis(rt, s, g, -0.0, NEITHER, "rectilinear, marks: at -0")?;
    on_axis(rt, s, g, 7.0, NEITHER, "rectilinear, marks: at 7")?;
    on_axis(rt, s, g, 8.0, ABOVE, "rectilinear, marks: at 8")?;
    on_axis(rt, s, g, far, ABOVE, "rectilinear, marks: at +inf")?;
    on_axis(rt, s, g, -far, BELOW, "rectilinear, marks: at -inf")
}

// 2^-1022, the least normal number.
fn least_normal() -> f64 {
    float_of(0x0010_0000_0000_0000)
}

// Below the start by so little that the quotient rounds to -0: InsideLow, and marked. By steps of +inf node 0 is a NaN and the last +inf: nothing is
// past them.
fn by_the_nodes(rt: &impl Print, s: &mut Score) -> io::Result<()> {
    let nodes = [0.0, 1.0, 2.0, 3.0];
    let start = least_normal();
    let below = float_of(bits_of(start).wrapping_sub(1));
    let g = regular_from(start, 1152921504606846976.0);
    let x = [below, 0.0, 0.0, 0.0];
    let loc = call_get_loc(g, &nodes, &nodes, x);
    let place = placed(0, Saturation::InsideLow);
    let case = same_place(
        &mut Tally::default(),
        0,
        ExpectedPlace::of(place),
        loc.answer.places[0],
    );
    told(rt, s, case, "regular, marks: InsideLow below the start")?;
    marked(
        rt,
        s,
        g,
        &nodes,
        &nodes,
        x,
        None,
        [BELOW, NEITHER, NEITHER, NEITHER],
        "regular, marks: below the start",
    )?;
    let at = [start, 0.0, 0.0, 0.0];
    marked(
        rt,
        s,
        g,
        &nodes,
        &nodes,
        at,
        None,
        [NEITHER; 4],
        "regular, marks: at the start",
    )?;
    let h = regular_from(0.0, f64::INFINITY);
    let before = [-1.0, 0.0, 0.0, 0.0];
    marked(
        rt,
        s,
        h,
        &nodes,
        &nodes,
        before,
        None,
        [NEITHER; 4],
        "regular, marks: step +inf, at -1",
    )
}

// Each axis by itself: two axes past one end each, and the third of four past its last. Axis 1 goes to 6, the others to 3.
fn each_axis(
    rt: &impl Print,
    s: &mut Score,
    two: Group,
    four: Group,
    on_two: &str,
    on_four: &str,
) -> io::Result<()> {
    let z = zeros();
    let axes = [
        0.0, 1.0, 2.0, 3.0, 0.0, 2.0, 4.0, 6.0, 0.0, 1.0, 2.0, 3.0, 0.0, 1.0, 2.0, 3.0,
    ];
    marked(
        rt,
        s,
        two,
        part(&axes, 8),
        part(&z, 16),
        [-0.5, 6.5, -0.5, 3.5],
        None,
        [BELOW, ABOVE, NEITHER, NEITHER],
        on_two,
    )?;
    marked(
        rt,
        s,
        four,
        &axes,
        part(&z, 256),
        [1.5, 4.5, 3.5, 3.0],
        None,
        [NEITHER, NEITHER, ABOVE, NEITHER],
        on_four,
    )
}

fn several_axes(rt: &impl Print, s: &mut Score) -> io::Result<()> {
    each_axis(
        rt,
        s,
        regular(2, 4, 4, 0, 1.0, 2.0),
        regular(4, 4, 4, 4, 1.0, 2.0),
        "regular, marks: below on axis 0, above on axis 1",
        "regular, marks: above on axis 2 of 4",
    )?;
    each_axis(
        rt,
        s,
        rectilinear(2, 4, 4, 0),
        rectilinear(4, 4, 4, 4),
        "rectilinear, marks: below on axis 0, above on axis 1",
        "rectilinear, marks: above on axis 2 of 4",
    )
}

// 2^63 is refused unless the edge is held; then it is answered, and marked.
fn far(rt: &impl Print, s: &mut Score) -> io::Result<()> {
    let nodes = [0.0, 1.0, 2.0, 3.0];
    let g = regular(1, 4, 0, 0, 1.0, 1.0);
    let x = [9223372036854775808.0, 0.0, 0.0, 0.0];
    let mut t = Tally::default();
    let no_place = Some(Check::NoPlace);
    let case = marked_in(&mut t, g, &nodes, &nodes, x, no_place, [NEITHER; 4])
        .and(marked_in(&mut t, cubic(g), &nodes, &nodes, x, no_place, [NEITHER; 4]))
        .and(marked_in(
            &mut t,
            held(g),
            &nodes,
            &nodes,
            x,
            None,
            [ABOVE, NEITHER, NEITHER, NEITHER],
        ));
    told(rt, s, case, "regular, marks: at 2^63")
}

// A refusal has no mark, on the axes that were not refused either.
fn refused(rt: &impl Print, s: &mut Score) -> io::Result<()> {
    let z = zeros();
    let nodes = [0.0, 1.0, 2.0, 3.0, 0.0, 1.0, 2.0, 1.0];
    let rising = [0.0, 1.0, 2.0, 3.0, 0.0, 1.0, 2.0, 3.0];
    let x = [-0.5, f64::NAN, 0.0, 0.0];
    let past = [-0.5, 9.0, 0.0, 0.0];
    let vals = part(&z, 16);
    marked(
        rt,
        s,
        regular(2, 4, 4, 0, 1.0, 1.0),
        &nodes,
        vals,
        x,
        Some(Check::NoNumber),
        [NEITHER; 4],
        "regular, marks: refused by 9 on axis 1",
    )?;
    marked(
        rt,
        s,
        rectilinear(2, 4, 4, 0),
        &rising,
        vals,
        x,
        Some(Check::NoNumber),
        [NEITHER; 4],
        "rectilinear, marks: refused by 9 on axis 1",
    )?;
    marked(
        rt,
        s,
        regular(2, 4, 4, 0, 1.0, 0.0),
        &nodes,
        vals,
        past,
        Some(Check::NotRising),
        [NEITHER; 4],
        "regular, marks: refused by 5 on axis 1",
    )?;
    marked(
        rt,
        s,
        rectilinear(2, 4, 4, 0),
        &nodes,
        vals,
        past,
        Some(Check::Disordered),
        [NEITHER; 4],
        "rectilinear, marks: refused by 6 on axis 1",
    )
}

pub fn marked_cases(rt: &impl Print, s: &mut Score) -> io::Result<()> {
    on_regular(rt, s)?;
    on_rectilinear(rt, s)?;
    by_the_nodes(rt, s)?;
    several_axes(rt, s)?;
    far(rt, s)?;
    refused(rt, s)
}
