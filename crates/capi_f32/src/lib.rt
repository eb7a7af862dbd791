// f32: written by tools/width from crates/capi/src/lib.rt; what has no float is called there.
// The calls for C and for other languages that link C: numbers and slices only, of any length. A slice is a pointer and a length. Each gives the
// number of clause 2.2, and writes query and axis to `refusal`, but for the version (clause 11.5).
#![tactic(auto)]

ghost use Rattle.std.specs.Prelude.{◌≡◌};
ghost use Rattle.std.specs.Float.{binary32};
ghost use Rattle.multicubic.specs.declared.EdgeMode.{EdgeMode};
ghost use Rattle.slices.specs.Lent.{set_by};
ghost use Rattle.regular_lent.specs.Regular.{regular_from};
ghost use Rattle.rectilinear_lent.specs.Rectilinear.{rectilinear_from};
ghost use Rattle.capi.specs.Calls.{version, new_leaves, get_loc_leaves, interp_one_leaves, interp_one_grad_leaves, interp_one_with_grad_leaves, interp_leaves, interp_grad_leaves};

use slices::{check_query_slices, check_slices, counts_from, least, mode_of, named, shortest_of};
use slices_f32::{axes_from, query_from};
use told::{tell, tell_both, tell_gradient, tell_places, tell_value};

// The version of these calls, which a caller compares with the one that its declarations are of.
#[unsafe(no_mangle)]
pub extern "C" fn veltzuma_version_f32() -> u32
    ensures { result ≡ version }
{
    4
}

// Takes a grid or turns it away.
#[tactic(auto, unfolding(capi::specs::Calls::new_leaves, regular_lent::specs::Regular::regular_from))]
#[unsafe(no_mangle)]
pub extern "C" fn veltzuma_regular_new_f32(
    axis_count: usize,
    counts: &[usize],
    starts: &[f32],
    steps: &[f32],
    vals: &[f32],
    refusal: &mut [usize],
) -> u8
    ensures { (mode : EdgeMode) → record { number = result; refusal = refusal.new; written = tt }
        ≡ new_leaves
        (regular_from binary32 axis_count counts.now starts.now steps.now vals.now mode) refusal.old }
{
    let shortest = shortest_of(counts.len(), starts.len(), steps.len());
    let slices = check_slices(axis_count, shortest, refusal.len());
    let outcome = regular_lent_f32::new(slices, axis_count, axes_from(counts, starts, steps), vals);
    tell(outcome, refusal)
}

// The place of a query: origin, class and marks on every axis.
#[tactic(auto, unfolding(capi::specs::Calls::get_loc_leaves, regular_lent::specs::Regular::regular_from))]
#[unsafe(no_mangle)]
pub extern "C" fn veltzuma_regular_get_loc_f32(
    axis_count: usize,
    counts: &[usize],
    starts: &[f32],
    steps: &[f32],
    vals: &[f32],
    mode: u8,
    x: &[f32],
    refusal: &mut [usize],
    origins: &mut [usize],
    classes: &mut [u8],
    marks: &mut [u8],
) -> u8
    ensures { record { number = result; refusal = refusal.new; written = ((origins.new, classes.new), marks.new) }
        ≡ get_loc_leaves
        (set_by (regular_from binary32 axis_count counts.now starts.now steps.now vals.now) mode)
        x.now refusal.old origins.old classes.old marks.old }
{
    let shortest = named(mode, shortest_of(counts.len(), starts.len(), steps.len()));
    let room = least(origins.len(), classes.len());
    let slices = check_query_slices(
        axis_count,
        shortest,
        x.len(),
        refusal.len(),
        room,
        axis_count,
        marks.len(),
    );
    let axes = axes_from(counts, starts, steps);
    let at = query_from(x);
    let answer = regular_lent_f32::get_loc(slices, axis_count, axes, vals, mode_of(mode), at);
    tell_places(answer, axis_count, refusal, origins, classes, marks)
}

// The value at a query, and its marks. Of a value that is a NaN the contract says that it is one, and leaves its payload open.
#[tactic(auto, unfolding(capi::specs::Calls::interp_one_leaves, regular_lent::specs::Regular::regular_from))]
#[unsafe(no_mangle)]
pub extern "C" fn veltzuma_regular_interp_one_f32(
    axis_count: usize,
    counts: &[usize],
    starts: &[f32],
    steps: &[f32],
    vals: &[f32],
    mode: u8,
    x: &[f32],
    refusal: &mut [usize],
    value: &mut [f32],
    marks: &mut [u8],
) -> u8
    ensures { record { number = result; refusal = refusal.new; written = (value.new, marks.new) }
        ≡ interp_one_leaves binary32
        (set_by (regular_from binary32 axis_count counts.now starts.now steps.now vals.now) mode)
        x.now refusal.old value.old marks.old }
{
    let shortest = named(mode, shortest_of(counts.len(), starts.len(), steps.len()));
    let room = value.len();
    let slices = check_query_slices(
        axis_count,
        shortest,
        x.len(),
        refusal.len(),
        room,
        1,
        marks.len(),
    );
    let axes = axes_from(counts, starts, steps);
    let at = query_from(x);
    let answer = regular_lent_f32::interp_one(slices, axis_count, axes, vals, mode_of(mode), at);
    tell_value(answer, axis_count, refusal, value, marks)
}

// The gradient at a query, and its marks. Of a component that is a NaN the contract says that it is one, and leaves its payload open.
#[tactic(auto, unfolding(capi::specs::Calls::interp_one_grad_leaves, regular_lent::specs::Regular::regular_from))]
#[unsafe(no_mangle)]
pub extern "C" fn veltzuma_regular_interp_one_grad_f32(
    axis_count: usize,
    counts: &[usize],
    starts: &[f32],
    steps: &[f32],
    vals: &[f32],
    mode: u8,
    x: &[f32],
    refusal: &mut [usize],
    gradient: &mut [f32],
    marks: &mut [u8],
) -> u8
    ensures { record { number = result; refusal = refusal.new; written = (gradient.new, marks.new) }
        ≡ interp_one_grad_leaves binary32
        (set_by (regular_from binary32 axis_count counts.now starts.now steps.now vals.now) mode)
        x.now refusal.old gradient.old marks.old }
{
    let shortest = named(mode, shortest_of(counts.len(), starts.len(), steps.len()));
    let room = gradient.len();
    let slices = check_query_slices(
        axis_count,
        shortest,
        x.len(),
        refusal.len(),
        room,
        axis_count,
        marks.len(),
    );
    let axes = axes_from(counts, starts, steps);
    let at = query_from(x);
    let answer = regular_lent_f32::interp_one_grad(
        slices,
        axis_count,
        axes,
        vals,
        mode_of(mode),
        at,
    );
    tell_gradient(answer, axis_count, refusal, gradient, marks)
}

// Value and gradient at a query, their marks and the number of four-term sums that they took together, which is 0 on every refusal but 7. Of a number
// that is a NaN the contract says that it is one, and leaves its payload open.
#[tactic(auto, unfolding(capi::specs::Calls::interp_one_with_grad_leaves, regular_lent::specs::Regular::regular_from))]
#[unsafe(no_mangle)]
pub extern "C" fn veltzuma_regular_interp_one_with_grad_f32(
    axis_count: usize,
    counts: &[usize],
    starts: &[f32],
    steps: &[f32],
    vals: &[f32],
    mode: u8,
    x: &[f32],
    refusal: &mut [usize],
    value: &mut [f32],
    gradient: &mut [f32],
    marks: &mut [u8],
    sums: &mut [usize],
) -> u8
    ensures { record { number = result; refusal = refusal.new; written = (((value.new, gradient.new), sums.new), marks.new) }
        ≡ interp_one_with_grad_leaves binary32
        (set_by (regular_from binary32 axis_count counts.now starts.now steps.now vals.now) mode)
        x.now refusal.old value.old gradient.old marks.old sums.old }
{
    let shortest = named(mode, shortest_of(counts.len(), starts.len(), steps.len()));
    let room = least(value.len(), sums.len());
    let each = least(gradient.len(), marks.len());
    let slices = check_query_slices(axis_count, shortest, x.len(), refusal.len(), room, 1, each);
    let axes = axes_from(counts, starts, steps);
    let at = query_from(x);
    let answer = regular_lent_f32::interp_one_with_grad(
        slices,
        axis_count,
        axes,
        vals,
        mode_of(mode),
        at,
    );
    tell_both(answer, axis_count, refusal, value, gradient, marks, sums)
}

// The values of a batch. Of a value that is a NaN the contract says that it is one, and leaves its payload open.
#[tactic(auto, unfolding(capi::specs::Calls::interp_leaves, regular_lent::specs::Regular::regular_from))]
#[unsafe(no_mangle)]
pub extern "C" fn veltzuma_regular_interp_f32(
    axis_count: usize,
    counts: &[usize],
    starts: &[f32],
    steps: &[f32],
    vals: &[f32],
    mode: u8,
    queries: &[f32],
    refusal: &mut [usize],
    out: &mut [f32],
) -> u8
    ensures { record { number = result; refusal = refusal.new; written = out.new }
        ≡ interp_leaves binary32
        (set_by (regular_from binary32 axis_count counts.now starts.now steps.now vals.now) mode)
        queries.now refusal.old out.old }
{
    let shortest = named(mode, shortest_of(counts.len(), starts.len(), steps.len()));
    let slices = check_slices(axis_count, shortest, refusal.len());
    let axes = axes_from(counts, starts, steps);
    let outcome = regular_lent_f32::interp(
        slices,
        axis_count,
        axes,
        vals,
        mode_of(mode),
        queries,
        out,
    );
    tell(outcome, refusal)
}

// The gradients of a batch. Of a component that is a NaN the contract says that it is one, and leaves its payload open.
#[tactic(auto, unfolding(capi::specs::Calls::interp_grad_leaves, regular_lent::specs::Regular::regular_from))]
#[unsafe(no_mangle)]
pub extern "C" fn veltzuma_regular_interp_grad_f32(
    axis_count: usize,
    counts: &[usize],
    starts: &[f32],
    steps: &[f32],
    vals: &[f32],
    mode: u8,
    queries: &[f32],
    refusal: &mut [usize],
    out: &mut [f32],
) -> u8
    ensures { record { number = result; refusal = refusal.new; written = out.new }
        ≡ interp_grad_leaves binary32
        (set_by (regular_from binary32 axis_count counts.now starts.now steps.now vals.now) mode)
        queries.now refusal.old out.old }
{
    let shortest = named(mode, shortest_of(counts.len(), starts.len(), steps.len()));
    let slices = check_slices(axis_count, shortest, refusal.len());
    let axes = axes_from(counts, starts, steps);
    let outcome = regular_lent_f32::interp_grad(
        slices,
        axis_count,
        axes,
        vals,
        mode_of(mode),
        queries,
        out,
    );
    tell(outcome, refusal)
}

// Takes a grid or turns it away.
#[tactic(auto, unfolding(capi::specs::Calls::new_leaves, rectilinear_lent::specs::Rectilinear::rectilinear_from))]
#[unsafe(no_mangle)]
pub extern "C" fn veltzuma_rectilinear_new_f32(
    axis_count: usize,
    counts: &[usize],
    axes: &[f32],
    vals: &[f32],
    refusal: &mut [usize],
) -> u8
    ensures { (mode : EdgeMode) → record { number = result; refusal = refusal.new; written = tt }
        ≡ new_leaves
        (rectilinear_from binary32 axis_count counts.now axes.now vals.now mode) refusal.old }
{
    let slices = check_slices(axis_count, counts.len(), refusal.len());
    let outcome = rectilinear_lent_f32::new(slices, axis_count, counts_from(counts), axes, vals);
    tell(outcome, refusal)
}

// The place of a query: origin, class and marks on every axis.
#[tactic(auto, unfolding(capi::specs::Calls::get_loc_leaves, rectilinear_lent::specs::Rectilinear::rectilinear_from))]
#[unsafe(no_mangle)]
pub extern "C" fn veltzuma_rectilinear_get_loc_f32(
    axis_count: usize,
    counts: &[usize],
    axes: &[f32],
    vals: &[f32],
    mode: u8,
    x: &[f32],
    refusal: &mut [usize],
    origins: &mut [usize],
    classes: &mut [u8],
    marks: &mut [u8],
) -> u8
    ensures { record { number = result; refusal = refusal.new; written = ((origins.new, classes.new), marks.new) }
        ≡ get_loc_leaves
        (set_by (rectilinear_from binary32 axis_count counts.now axes.now vals.now) mode)
        x.now refusal.old origins.old classes.old marks.old }
{
    let shortest = named(mode, counts.len());
    let room = least(origins.len(), classes.len());
    let slices = check_query_slices(
        axis_count,
        shortest,
        x.len(),
        refusal.len(),
        room,
        axis_count,
        marks.len(),
    );
    let four = counts_from(counts);
    let at = query_from(x);
    let answer = rectilinear_lent_f32::get_loc(
        slices,
        axis_count,
        four,
        axes,
        vals,
        mode_of(mode),
        at,
    );
    tell_places(answer, axis_count, refusal, origins, classes, marks)
}

// The value at a query, and its marks. Of a value that is a NaN the contract says that it is one, and leaves its payload open.
#[tactic(auto, unfolding(capi::specs::Calls::interp_one_leaves, rectilinear_lent::specs::Rectilinear::rectilinear_from))]
#[unsafe(no_mangle)]
pub extern "C" fn veltzuma_rectilinear_interp_one_f32(
    axis_count: usize,
    counts: &[usize],
    axes: &[f32],
    vals: &[f32],
    mode: u8,
    x: &[f32],
    refusal: &mut [usize],
    value: &mut [f32],
    marks: &mut [u8],
) -> u8
    ensures { record { number = result; refusal = refusal.new; written = (value.new, marks.new) }
        ≡ interp_one_leaves binary32
        (set_by (rectilinear_from binary32 axis_count counts.now axes.now vals.now) mode)
        x.now refusal.old value.old marks.old }
{
    let shortest = named(mode, counts.len());
    let room = value.len();
    let slices = check_query_slices(
        axis_count,
        shortest,
        x.len(),
        refusal.len(),
        room,
        1,
        marks.len(),
    );
    let four = counts_from(counts);
    let at = query_from(x);
    let answer = rectilinear_lent_f32::interp_one(
        slices,
        axis_count,
        four,
        axes,
        vals,
        mode_of(mode),
        at,
    );
    tell_value(answer, axis_count, refusal, value, marks)
}

// The gradient at a query, and its marks. Of a component that is a NaN the contract says that it is one, and leaves its payload open.
#[tactic(auto, unfolding(capi::specs::Calls::interp_one_grad_leaves, rectilinear_lent::specs::Rectilinear::rectilinear_from))]
#[unsafe(no_mangle)]
pub extern "C" fn veltzuma_rectilinear_interp_one_grad_f32(
    axis_count: usize,
    counts: &[usize],
    axes: &[f32],
    vals: &[f32],
    mode: u8,
    x: &[f32],
    refusal: &mut [usize],
    gradient: &mut [f32],
    marks: &mut [u8],
) -> u8
    ensures { record { number = result; refusal = refusal.new; written = (gradient.new, marks.new) }
        ≡ interp_one_grad_leaves binary32
        (set_by (rectilinear_from binary32 axis_count counts.now axes.now vals.now) mode)
        x.now refusal.old gradient.old marks.old }
{
    let shortest = named(mode, counts.len());
    let room = gradient.len();
    let slices = check_query_slices(
        axis_count,
        shortest,
        x.len(),
        refusal.len(),
        room,
        axis_count,
        marks.len(),
    );
    let four = counts_from(counts);
    let at = query_from(x);
    let answer = rectilinear_lent_f32::interp_one_grad(
        slices,
        axis_count,
        four,
        axes,
        vals,
        mode_of(mode),
        at,
    );
    tell_gradient(answer, axis_count, refusal, gradient, marks)
}

// Value and gradient at a query, their marks and the number of four-term sums that they took together, which is 0 on every refusal but 7. Of a number
// that is a NaN the contract says that it is one, and leaves its payload open.
#[tactic(auto, unfolding(capi::specs::Calls::interp_one_with_grad_leaves, rectilinear_lent::specs::Rectilinear::rectilinear_from))]
#[unsafe(no_mangle)]
pub extern "C" fn veltzuma_rectilinear_interp_one_with_grad_f32(
    axis_count: usize,
    counts: &[usize],
    axes: &[f32],
    vals: &[f32],
    mode: u8,
    x: &[f32],
    refusal: &mut [usize],
    value: &mut [f32],
    gradient: &mut [f32],
    marks: &mut [u8],
    sums: &mut [usize],
) -> u8
    ensures { record { number = result; refusal = refusal.new; written = (((value.new, gradient.new), sums.new), marks.new) }
        ≡ interp_one_with_grad_leaves binary32
        (set_by (rectilinear_from binary32 axis_count counts.now axes.now vals.now) mode)
        x.now refusal.old value.old gradient.old marks.old sums.old }
{
    let shortest = named(mode, counts.len());
    let room = least(value.len(), sums.len());
    let each = least(gradient.len(), marks.len());
    let slices = check_query_slices(axis_count, shortest, x.len(), refusal.len(), room, 1, each);
    let four = counts_from(counts);
    let at = query_from(x);
    let answer = rectilinear_lent_f32::interp_one_with_grad(
        slices,
        axis_count,
        four,
        axes,
        vals,
        mode_of(mode),
        at,
    );
    tell_both(answer, axis_count, refusal, value, gradient, marks, sums)
}

// The values of a batch. Of a value that is a NaN the contract says that it is one, and leaves its payload open.
#[tactic(auto, unfolding(capi::specs::Calls::interp_leaves, rectilinear_lent::specs::Rectilinear::rectilinear_from))]
#[unsafe(no_mangle)]
pub extern "C" fn veltzuma_rectilinear_interp_f32(
    axis_count: usize,
    counts: &[usize],
    axes: &[f32],
    vals: &[f32],
    mode: u8,
    queries: &[f32],
    refusal: &mut [usize],
    out: &mut [f32],
) -> u8
    ensures { record { number = result; refusal = refusal.new; written = out.new }
        ≡ interp_leaves binary32
        (set_by (rectilinear_from binary32 axis_count counts.now axes.now vals.now) mode)
        queries.now refusal.old out.old }
{
    let shortest = named(mode, counts.len());
    let slices = check_slices(axis_count, shortest, refusal.len());
    let four = counts_from(counts);
    let outcome = rectilinear_lent_f32::interp(
        slices,
        axis_count,
        four,
        axes,
        vals,
        mode_of(mode),
        queries,
        out,
    );
    tell(outcome, refusal)
}

// The gradients of a batch. Of a component that is a NaN the contract says that it is one, and leaves its payload open.
#[tactic(auto, unfolding(capi::specs::Calls::interp_grad_leaves, rectilinear_lent::specs::Rectilinear::rectilinear_from))]
#[unsafe(no_mangle)]
pub extern "C" fn veltzuma_rectilinear_interp_grad_f32(
    axis_count: usize,
    counts: &[usize],
    axes: &[f32],
    vals: &[f32],
    mode: u8,
    queries: &[f32],
    refusal: &mut [usize],
    out: &mut [f32],
) -> u8
    ensures { record { number = result; refusal = refusal.new; written = out.new }
        ≡ interp_grad_leaves binary32
        (set_by (rectilinear_from binary32 axis_count counts.now axes.now vals.now) mode)
        queries.now refusal.old out.old }
{
    let shortest = named(mode, counts.len());
    let slices = check_slices(axis_count, shortest, refusal.len());
    let four = counts_from(counts);
    let outcome = rectilinear_lent_f32::interp_grad(
        slices,
        axis_count,
        four,
        axes,
        vals,
        mode_of(mode),
        queries,
        out,
    );
    tell(outcome, refusal)
}
