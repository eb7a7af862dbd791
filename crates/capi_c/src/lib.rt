// The calls for C and for other languages that link C, as the static library exports them: each gives what the call of the same name in capi gives and
// leaves what it leaves, under the same clauses. A slice is a pointer and a length (clause 11.5).
#![tactic(auto)]

ghost use Rattle.std.specs.Prelude.{◌≡◌};
ghost use Rattle.std.specs.Float.{binary64};
ghost use Rattle.multicubic.specs.declared.EdgeMode.{EdgeMode};
ghost use Rattle.slices.specs.Lent.{set_by};
ghost use Rattle.regular_lent.specs.Regular.{regular_from};
ghost use Rattle.rectilinear_lent.specs.Rectilinear.{rectilinear_from};
ghost use Rattle.capi.specs.Calls.{version, new_leaves, get_loc_leaves, interp_one_leaves, interp_one_grad_leaves, interp_one_with_grad_leaves, interp_leaves, interp_grad_leaves};

// The version of these calls, which a caller compares with the one that its declarations are of.
#[unsafe(no_mangle)]
pub extern "C" fn veltzuma_version() -> u32
    ensures { result ≡ version }
{
    capi::veltzuma_version()
}

// Takes a grid or turns it away.
#[unsafe(no_mangle)]
pub extern "C" fn veltzuma_regular_new(
    axis_count: usize,
    counts: &[usize],
    starts: &[f64],
    steps: &[f64],
    vals: &[f64],
    refusal: &mut [usize],
) -> u8
    ensures { (mode : EdgeMode) → record { number = result; refusal = refusal.new; written = tt }
        ≡ new_leaves
        (regular_from binary64 axis_count counts.now starts.now steps.now vals.now mode) refusal.old }
{
    capi::veltzuma_regular_new(axis_count, counts, starts, steps, vals, refusal)
}

// The place of a query: origin, class and marks on every axis.
#[unsafe(no_mangle)]
pub extern "C" fn veltzuma_regular_get_loc(
    axis_count: usize,
    counts: &[usize],
    starts: &[f64],
    steps: &[f64],
    vals: &[f64],
    mode: u8,
    x: &[f64],
    refusal: &mut [usize],
    origins: &mut [usize],
    classes: &mut [u8],
    marks: &mut [u8],
) -> u8
    ensures { record { number = result; refusal = refusal.new; written = ((origins.new, classes.new), marks.new) }
        ≡ get_loc_leaves
        (set_by (regular_from binary64 axis_count counts.now starts.now steps.now vals.now) mode)
        x.now refusal.old origins.old classes.old marks.old }
{
    capi::veltzuma_regular_get_loc(
        axis_count, counts, starts, steps, vals, mode, x, refusal, origins, classes, marks,
    )
}

// The value at a query, and its marks. Of a value that is a NaN the contract says that it is one, and leaves its payload open.
#[unsafe(no_mangle)]
pub extern "C" fn veltzuma_regular_interp_one(
    axis_count: usize,
    counts: &[usize],
    starts: &[f64],
    steps: &[f64],
    vals: &[f64],
    mode: u8,
    x: &[f64],
    refusal: &mut [usize],
    value: &mut [f64],
    marks: &mut [u8],
) -> u8
    ensures { record { number = result; refusal = refusal.new; written = (value.new, marks.new) }
        ≡ interp_one_leaves binary64
        (set_by (regular_from binary64 axis_count counts.now starts.now steps.now vals.now) mode)
        x.now refusal.old value.old marks.old }
{
    capi::veltzuma_regular_interp_one(
        axis_count, counts, starts, steps, vals, mode, x, refusal, value, marks,
    )
}

// The gradient at a query, and its marks. Of a component that is a NaN the contract says that it is one, and leaves its payload open.
#[unsafe(no_mangle)]
pub extern "C" fn veltzuma_regular_interp_one_grad(
    axis_count: usize,
    counts: &[usize],
    starts: &[f64],
    steps: &[f64],
    vals: &[f64],
    mode: u8,
    x: &[f64],
    refusal: &mut [usize],
    gradient: &mut [f64],
    marks: &mut [u8],
) -> u8
    ensures { record { number = result; refusal = refusal.new; written = (gradient.new, marks.new) }
        ≡ interp_one_grad_leaves binary64
        (set_by (regular_from binary64 axis_count counts.now starts.now steps.now vals.now) mode)
        x.now refusal.old gradient.old marks.old }
{
    capi::veltzuma_regular_interp_one_grad(
        axis_count, counts, starts, steps, vals, mode, x, refusal, gradient, marks,
    )
}

// Value and gradient at a query, their marks and the number of four-term sums that they took together, which is 0 on every refusal but 7. Of a number
// that is a NaN the contract says that it is one, and leaves its payload open.
#[unsafe(no_mangle)]
pub extern "C" fn veltzuma_regular_interp_one_with_grad(
    axis_count: usize,
    counts: &[usize],
    starts: &[f64],
    steps: &[f64],
    vals: &[f64],
    mode: u8,
    x: &[f64],
    refusal: &mut [usize],
    value: &mut [f64],
    gradient: &mut [f64],
    marks: &mut [u8],
    sums: &mut [usize],
) -> u8
    ensures { record { number = result; refusal = refusal.new; written = (((value.new, gradient.new), sums.new), marks.new) }
        ≡ interp_one_with_grad_leaves binary64
        (set_by (regular_from binary64 axis_count counts.now starts.now steps.now vals.now) mode)
        x.now refusal.old value.old gradient.old marks.old sums.old }
{
    capi::veltzuma_regular_interp_one_with_grad(
        axis_count, counts, starts, steps, vals, mode, x, refusal, value, gradient, marks, sums,
    )
}

// The values of a batch. Of a value that is a NaN the contract says that it is one, and leaves its payload open.
#[unsafe(no_mangle)]
pub extern "C" fn veltzuma_regular_interp(
    axis_count: usize,
    counts: &[usize],
    starts: &[f64],
    steps: &[f64],
    vals: &[f64],
    mode: u8,
    queries: &[f64],
    refusal: &mut [usize],
    out: &mut [f64],
) -> u8
    ensures { record { number = result; refusal = refusal.new; written = out.new }
        ≡ interp_leaves binary64
        (set_by (regular_from binary64 axis_count counts.now starts.now steps.now vals.now) mode)
        queries.now refusal.old out.old }
{
    capi::veltzuma_regular_interp(
        axis_count, counts, starts, steps, vals, mode, queries, refusal, out,
    )
}

// The gradients of a batch. Of a component that is a NaN the contract says that it is one, and leaves its payload open.
#[unsafe(no_mangle)]
pub extern "C" fn veltzuma_regular_interp_grad(
    axis_count: usize,
    counts: &[usize],
    starts: &[f64],
    steps: &[f64],
    vals: &[f64],
    mode: u8,
    queries: &[f64],
    refusal: &mut [usize],
    out: &mut [f64],
) -> u8
    ensures { record { number = result; refusal = refusal.new; written = out.new }
        ≡ interp_grad_leaves binary64
        (set_by (regular_from binary64 axis_count counts.now starts.now steps.now vals.now) mode)
        queries.now refusal.old out.old }
{
    capi::veltzuma_regular_interp_grad(
        axis_count, counts, starts, steps, vals, mode, queries, refusal, out,
    )
}

// Takes a grid or turns it away.
#[unsafe(no_mangle)]
pub extern "C" fn veltzuma_rectilinear_new(
    axis_count: usize,
    counts: &[usize],
    axes: &[f64],
    vals: &[f64],
    refusal: &mut [usize],
) -> u8
    ensures { (mode : EdgeMode) → record { number = result; refusal = refusal.new; written = tt }
        ≡ new_leaves
        (rectilinear_from binary64 axis_count counts.now axes.now vals.now mode) refusal.old }
{
    capi::veltzuma_rectilinear_new(axis_count, counts, axes, vals, refusal)
}

// The place of a query: origin, class and marks on every axis.
#[unsafe(no_mangle)]
pub extern "C" fn veltzuma_rectilinear_get_loc(
    axis_count: usize,
    counts: &[usize],
    axes: &[f64],
    vals: &[f64],
    mode: u8,
    x: &[f64],
    refusal: &mut [usize],
    origins: &mut [usize],
    classes: &mut [u8],
    marks: &mut [u8],
) -> u8
    ensures { record { number = result; refusal = refusal.new; written = ((origins.new, classes.new), marks.new) }
        ≡ get_loc_leaves
        (set_by (rectilinear_from binary64 axis_count counts.now axes.now vals.now) mode)
        x.now refusal.old origins.old classes.old marks.old }
{
    capi::veltzuma_rectilinear_get_loc(
        axis_count, counts, axes, vals, mode, x, refusal, origins, classes, marks,
    )
}

// The value at a query, and its marks. Of a value that is a NaN the contract says that it is one, and leaves its payload open.
#[unsafe(no_mangle)]
pub extern "C" fn veltzuma_rectilinear_interp_one(
    axis_count: usize,
    counts: &[usize],
    axes: &[f64],
    vals: &[f64],
    mode: u8,
    x: &[f64],
    refusal: &mut [usize],
    value: &mut [f64],
    marks: &mut [u8],
) -> u8
    ensures { record { number = result; refusal = refusal.new; written = (value.new, marks.new) }
        ≡ interp_one_leaves binary64
        (set_by (rectilinear_from binary64 axis_count counts.now axes.now vals.now) mode)
        x.now refusal.old value.old marks.old }
{
    capi::veltzuma_rectilinear_interp_one(
        axis_count, counts, axes, vals, mode, x, refusal, value, marks,
    )
}

// The gradient at a query, and its marks. Of a component that is a NaN the contract says that it is one, and leaves its payload open.
#[unsafe(no_mangle)]
pub extern "C" fn veltzuma_rectilinear_interp_one_grad(
    axis_count: usize,
    counts: &[usize],
    axes: &[f64],
    vals: &[f64],
    mode: u8,
    x: &[f64],
    refusal: &mut [usize],
    gradient: &mut [f64],
    marks: &mut [u8],
) -> u8
    ensures { record { number = result; refusal = refusal.new; written = (gradient.new, marks.new) }
        ≡ interp_one_grad_leaves binary64
        (set_by (rectilinear_from binary64 axis_count counts.now axes.now vals.now) mode)
        x.now refusal.old gradient.old marks.old }
{
    capi::veltzuma_rectilinear_interp_one_grad(
        axis_count, counts, axes, vals, mode, x, refusal, gradient, marks,
    )
}

// Value and gradient at a query, their marks and the number of four-term sums that they took together, which is 0 on every refusal but 7. Of a number
// that is a NaN the contract says that it is one, and leaves its payload open.
#[unsafe(no_mangle)]
pub extern "C" fn veltzuma_rectilinear_interp_one_with_grad(
    axis_count: usize,
    counts: &[usize],
    axes: &[f64],
    vals: &[f64],
    mode: u8,
    x: &[f64],
    refusal: &mut [usize],
    value: &mut [f64],
    gradient: &mut [f64],
    marks: &mut [u8],
    sums: &mut [usize],
) -> u8
    ensures { record { number = result; refusal = refusal.new; written = (((value.new, gradient.new), sums.new), marks.new) }
        ≡ interp_one_with_grad_leaves binary64
        (set_by (rectilinear_from binary64 axis_count counts.now axes.now vals.now) mode)
        x.now refusal.old value.old gradient.old marks.old sums.old }
{
    capi::veltzuma_rectilinear_interp_one_with_grad(
        axis_count, counts, axes, vals, mode, x, refusal, value, gradient, marks, sums,
    )
}

// The values of a batch. Of a value that is a NaN the contract says that it is one, and leaves its payload open.
#[unsafe(no_mangle)]
pub extern "C" fn veltzuma_rectilinear_interp(
    axis_count: usize,
    counts: &[usize],
    axes: &[f64],
    vals: &[f64],
    mode: u8,
    queries: &[f64],
    refusal: &mut [usize],
    out: &mut [f64],
) -> u8
    ensures { record { number = result; refusal = refusal.new; written = out.new }
        ≡ interp_leaves binary64
        (set_by (rectilinear_from binary64 axis_count counts.now axes.now vals.now) mode)
        queries.now refusal.old out.old }
{
    capi::veltzuma_rectilinear_interp(axis_count, counts, axes, vals, mode, queries, refusal, out)
}

// The gradients of a batch. Of a component that is a NaN the contract says that it is one, and leaves its payload open.
#[unsafe(no_mangle)]
pub extern "C" fn veltzuma_rectilinear_interp_grad(
    axis_count: usize,
    counts: &[usize],
    axes: &[f64],
    vals: &[f64],
    mode: u8,
    queries: &[f64],
    refusal: &mut [usize],
    out: &mut [f64],
) -> u8
    ensures { record { number = result; refusal = refusal.new; written = out.new }
        ≡ interp_grad_leaves binary64
        (set_by (rectilinear_from binary64 axis_count counts.now axes.now vals.now) mode)
        queries.now refusal.old out.old }
{
    capi::veltzuma_rectilinear_interp_grad(
        axis_count, counts, axes, vals, mode, queries, refusal, out,
    )
}
