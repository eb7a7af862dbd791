// The cases of refusals 1 to 6 and 10 that need no grid of their own, on both kinds, with what is easily missed of their order.
#![tactic(auto)]

use cases_calls::{
    Score, answered, held, placed, rectilinear, rectilinear_refused, rectilinear_refused_order,
    rectilinear_taken, refused_asked, regular_from, regular_refused, regular_taken, taken,
    with_buffers,
};
use harness_words::float_of;
use multicubic::{Check, Saturation};
use std::io;

// Counts 3 | 4 and 4,096 | 4,097.
fn regular_counts(rt: &impl Print, s: &mut Score) -> io::Result<()> {
    regular_refused(
        rt,
        s,
        1,
        [3, 0, 0],
        [1.0; 2],
        3,
        Check::TooFew,
        0,
        "regular, 3 entries",
    )?;
    regular_taken(rt, s, 4, "regular, 4 entries, no queries")?;
    regular_taken(rt, s, 4096, "regular, 4,096 entries, no queries")?;
    regular_refused(
        rt,
        s,
        1,
        [4097, 0, 0],
        [1.0; 2],
        4097,
        Check::TooLarge,
        0,
        "regular, 4,097 entries",
    )
}

fn rectilinear_counts(rt: &impl Print, s: &mut Score) -> io::Result<()> {
    rectilinear_refused(
        rt,
        s,
        1,
        [3, 0, 0],
        3,
        3,
        Check::TooFew,
        0,
        "rectilinear, 3 entries",
    )?;
    rectilinear_taken(rt, s, 4, "rectilinear, 4 entries, no queries")?;
    rectilinear_taken(rt, s, 4096, "rectilinear, 4,096 entries, no queries")?;
    rectilinear_refused(
        rt,
        s,
        1,
        [4097, 0, 0],
        4097,
        4097,
        Check::TooLarge,
        0,
        "rectilinear, 4,097 entries",
    )
}

// Refusals 1 to 3 of a regular grid.
fn regular_sizes(rt: &impl Print, s: &mut Score) -> io::Result<()> {
    regular_refused(
        rt,
        s,
        0,
        [4, 4, 4],
        [1.0; 2],
        0,
        Check::AxisCount,
        0,
        "regular, 1: no axes",
    )?;
    regular_refused(
        rt,
        s,
        5,
        [4, 4, 4],
        [1.0; 2],
        0,
        Check::AxisCount,
        0,
        "regular, 1: 5 axes",
    )?;
    regular_refused(
        rt,
        s,
        2,
        [4096, 4096, 0],
        [1.0; 2],
        0,
        Check::TooLarge,
        0,
        "regular, 2: product",
    )?;
    regular_refused(
        rt,
        s,
        1,
        [4, 0, 0],
        [1.0; 2],
        3,
        Check::WrongLength,
        0,
        "regular, 3: values",
    )?;
    regular_refused(
        rt,
        s,
        1,
        [3, 0, 0],
        [1.0; 2],
        4,
        Check::WrongLength,
        0,
        "regular, 3 before 4",
    )
}

// Refusals 4 and 5.
fn regular_steps(rt: &impl Print, s: &mut Score) -> io::Result<()> {
    let nan = f64::NAN;
    regular_refused(
        rt,
        s,
        2,
        [4, 3, 0],
        [1.0; 2],
        12,
        Check::TooFew,
        1,
        "regular, 4: axis 1",
    )?;
    regular_refused(
        rt,
        s,
        2,
        [4, 3, 0],
        [nan, 1.0],
        12,
        Check::TooFew,
        1,
        "regular, 4 before 5",
    )?;
    regular_refused(
        rt,
        s,
        3,
        [4096, 4096, 0],
        [1.0; 2],
        0,
        Check::TooFew,
        2,
        "regular, 4: counts 4096, 4096, 0",
    )?;
    regular_refused(
        rt,
        s,
        2,
        [4, 4, 0],
        [1.0, 0.0],
        16,
        Check::NotRising,
        1,
        "regular, 5: step 0 on axis 1",
    )?;
    regular_refused(
        rt,
        s,
        2,
        [4, 4, 0],
        [1.0, nan],
        16,
        Check::NotRising,
        1,
        "regular, 5: step NaN on axis 1",
    )?;
    regular_refused(
        rt,
        s,
        2,
        [4, 4, 0],
        [-1.0, -1.0],
        16,
        Check::NotRising,
        0,
        "regular, 5: lowest axis",
    )
}

// Refusals 1 and 2 of a rectilinear grid.
fn rectilinear_axes(rt: &impl Print, s: &mut Score) -> io::Result<()> {
    rectilinear_refused(
        rt,
        s,
        0,
        [4, 4, 4],
        0,
        0,
        Check::AxisCount,
        0,
        "rectilinear, 1: no axes",
    )?;
    rectilinear_refused(
        rt,
        s,
        5,
        [4, 4, 4],
        0,
        0,
        Check::AxisCount,
        0,
        "rectilinear, 1: 5 axes",
    )?;
    rectilinear_refused(
        rt,
        s,
        2,
        [4096, 4096, 0],
        8192,
        0,
        Check::TooLarge,
        0,
        "rectilinear, 2: product",
    )
}

// Refusals 3 and 4.
fn rectilinear_sizes(rt: &impl Print, s: &mut Score) -> io::Result<()> {
    rectilinear_refused(
        rt,
        s,
        1,
        [4, 0, 0],
        4,
        3,
        Check::WrongLength,
        0,
        "rectilinear, 3: values",
    )?;
    rectilinear_refused(
        rt,
        s,
        1,
        [4, 0, 0],
        5,
        4,
        Check::WrongLength,
        0,
        "rectilinear, 3: axes",
    )?;
    rectilinear_refused(
        rt,
        s,
        1,
        [3, 0, 0],
        3,
        4,
        Check::WrongLength,
        0,
        "rectilinear, 3 before 4",
    )?;
    rectilinear_refused(
        rt,
        s,
        2,
        [4, 3, 0],
        7,
        12,
        Check::TooFew,
        1,
        "rectilinear, 4: axis 1",
    )?;
    rectilinear_refused(
        rt,
        s,
        3,
        [4096, 4096, 0],
        8192,
        0,
        Check::TooFew,
        2,
        "rectilinear, 4: counts 4096, 4096, 0",
    )
}

// Refusal 5, on two axes of four entries.
fn rectilinear_rising(rt: &impl Print, s: &mut Score) -> io::Result<()> {
    let nan = f64::NAN;
    let same = [0.0, 1.0, 2.0, 3.0, 0.0, 0.0, 2.0, 3.0];
    let below = [0.0, 1.0, 2.0, 1.0, 0.0, 0.0, 2.0, 3.0];
    let nan_0 = [0.0, 1.0, 2.0, 3.0, nan, 1.0, 2.0, 3.0];
    let nan_1 = [0.0, nan, 2.0, 3.0, 0.0, 0.0, 2.0, 3.0];
    rectilinear_refused_order(
        rt,
        s,
        same,
        Check::NotRising,
        1,
        "rectilinear, 5: entry 1 = entry 0 on axis 1",
    )?;
    rectilinear_refused_order(rt, s, below, Check::NotRising, 1, "rectilinear, 5 before 6")?;
    rectilinear_refused_order(
        rt,
        s,
        nan_0,
        Check::NotRising,
        1,
        "rectilinear, 5: entry 0 NaN",
    )?;
    rectilinear_refused_order(
        rt,
        s,
        nan_1,
        Check::NotRising,
        0,
        "rectilinear, 5: entry 1 NaN",
    )
}

// Refusal 6.
fn rectilinear_order(rt: &impl Print, s: &mut Score) -> io::Result<()> {
    let nan = f64::NAN;
    let below = [0.0, 1.0, 2.0, 3.0, 0.0, 1.0, 2.0, 1.0];
    let nan_2 = [0.0, 1.0, nan, 3.0, 0.0, 1.0, 2.0, 1.0];
    rectilinear_refused_order(
        rt,
        s,
        below,
        Check::Disordered,
        1,
        "rectilinear, 6: entry 3 below on axis 1",
    )?;
    rectilinear_refused_order(
        rt,
        s,
        nan_2,
        Check::Disordered,
        0,
        "rectilinear, 6: entry 2 NaN",
    )
}

// Refusal 10: equal neighbours after entry 1, equal as numbers.
fn rectilinear_flat(rt: &impl Print, s: &mut Score) -> io::Result<()> {
    let infinity = f64::INFINITY;
    let same = [0.0, 1.0, 1.0, 2.0, 0.0, 1.0, 2.0, 3.0];
    let last = [0.0, 1.0, 2.0, 3.0, 0.0, 1.0, 2.0, 2.0];
    let both = [0.0, 1.0, 2.0, 2.0, 0.0, 1.0, 1.0, 2.0];
    let zeros = [-1.0, -0.0, 0.0, 1.0, 0.0, 1.0, 2.0, 3.0];
    let zeros_back = [-1.0, 0.0, -0.0, 1.0, 0.0, 1.0, 2.0, 3.0];
    let infinite = [0.0, 1.0, infinity, infinity, 0.0, 1.0, 2.0, 3.0];
    rectilinear_refused_order(
        rt,
        s,
        same,
        Check::NotSteep,
        0,
        "rectilinear, 10: entry 2 = entry 1",
    )?;
    rectilinear_refused_order(
        rt,
        s,
        last,
        Check::NotSteep,
        1,
        "rectilinear, 10: last pair of axis 1",
    )?;
    rectilinear_refused_order(
        rt,
        s,
        both,
        Check::NotSteep,
        0,
        "rectilinear, 10: lowest of two axes",
    )?;
    rectilinear_refused_order(rt, s, zeros, Check::NotSteep, 0, "rectilinear, 10: -0, +0")?;
    rectilinear_refused_order(
        rt,
        s,
        zeros_back,
        Check::NotSteep,
        0,
        "rectilinear, 10: +0, -0",
    )?;
    rectilinear_refused_order(
        rt,
        s,
        infinite,
        Check::NotSteep,
        0,
        "rectilinear, 10: two infinities",
    )
}

// Its order: 5 and 6 on any axis come before it, 7 and 9 after it.
fn flat_in_order(rt: &impl Print, s: &mut Score) -> io::Result<()> {
    let nan = f64::NAN;
    let zero = [-0.0, 0.0, 1.0, 2.0, 0.0, 1.0, 1.0, 2.0];
    let start = [0.0, 1.0, 1.0, 2.0, 0.0, 0.0, 1.0, 2.0];
    let below = [0.0, 1.0, 1.0, 2.0, 0.0, 1.0, 2.0, 1.0];
    rectilinear_refused_order(
        rt,
        s,
        zero,
        Check::NotRising,
        0,
        "rectilinear, 5: -0, +0 at entries 0, 1",
    )?;
    rectilinear_refused_order(
        rt,
        s,
        start,
        Check::NotRising,
        1,
        "rectilinear, 5 before 10",
    )?;
    rectilinear_refused_order(
        rt,
        s,
        below,
        Check::Disordered,
        1,
        "rectilinear, 6 before 10",
    )?;
    let g = rectilinear(1, 4, 0, 0);
    let flat = [0.0, 1.0, 2.0, 2.0];
    let vals = [0.5; 4];
    refused_asked(
        rt,
        s,
        with_buffers(g, 2, 2),
        &flat,
        &vals,
        [0.5; 4],
        &[0.5; 3],
        Check::NotSteep,
        0,
        "rectilinear, 10 before 7",
    )?;
    refused_asked(
        rt,
        s,
        with_buffers(held(g), 4, 4),
        &flat,
        &vals,
        [nan; 4],
        &[nan; 4],
        Check::NotSteep,
        0,
        "rectilinear, held: 10 before 9",
    )
}

// The number after 1.
fn above_one() -> f64 {
    float_of(0x3FF0_0000_0000_0001)
}

// Neighbours that are one unit apart rise: the node is answered with its value, and the slope is one over the gap.
fn one_unit_apart(rt: &impl Print, s: &mut Score) -> io::Result<()> {
    let x = above_one();
    let gap = x - 1.0;
    let entries = [1.0, x, x + gap, x + gap + gap];
    let vals = [0.0, 1.0, 2.0, 3.0];
    answered(
        rt,
        s,
        rectilinear(1, 4, 0, 0),
        &entries,
        &vals,
        x,
        placed(0, Saturation::InsideLow),
        1.0,
        1.0 / gap,
        "rectilinear, one unit apart",
    )
}

// A regular grid has no 10, though its nodes coincide as rounded.
fn coinciding_nodes(rt: &impl Print, s: &mut Score) -> io::Result<()> {
    taken(
        rt,
        s,
        regular_from(10000000000000000.0, 0.1),
        &[0.0; 4],
        &[0.0; 4],
        "regular, nodes that coincide",
    )
}

// All of them.
pub fn refusals(rt: &impl Print, s: &mut Score) -> io::Result<()> {
    regular_counts(rt, s)?;
    rectilinear_counts(rt, s)?;
    regular_sizes(rt, s)?;
    regular_steps(rt, s)?;
    rectilinear_axes(rt, s)?;
    rectilinear_sizes(rt, s)?;
    rectilinear_rising(rt, s)?;
    rectilinear_order(rt, s)?;
    rectilinear_flat(rt, s)?;
    flat_in_order(rt, s)?;
    one_unit_apart(rt, s)?;
    coinciding_nodes(rt, s)
}
