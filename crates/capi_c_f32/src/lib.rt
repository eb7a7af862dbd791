// f32: written by tools/width from crates/capi_c/src/lib.rt; what has no float is called there.
// The calls for C and for other languages that link C, as the static library exports them: each gives what the call of the same name in capi gives and
// leaves what it leaves, under the same clauses. A slice is a pointer and a length (clause 11.5).
#![tactic(auto)]

ghost use Rattle.std.specs.Prelude.{◌≡◌};
ghost use Rattle.std.specs.Float.{binary32};
ghost use Rattle.multicubic.specs.declared.EdgeMode.{EdgeMode};
ghost use Rattle.slices.specs.Lent.{set_by};
ghost use Rattle.regular_lent.specs.Regular.{regular_from};
ghost use Rattle.rectilinear_lent.specs.Rectilinear.{rectilinear_from};
ghost use Rattle.capi.specs.Calls.{version, new_leaves, get_loc_leaves, interp_one_leaves, interp_one_grad_leaves, interp_one_with_grad_leaves, interp_leaves, interp_grad_leaves};

// The version of these calls, which a caller compares with the one that its declarations are of.
#[unsafe(no_mangle)]
pub extern "C" fn veltzuma_version_f32() -> u32
    ensures { result ≡ version }
{
    capi_f32::veltzuma_version_f32()
}

// Takes a grid or turns it away.
#[unsafe(no_mangle)]
pub extern "C" fn veltzuma_regular_new_f32(
    axis_count: usize,
    counts: &[usize],
    starts: &[f32],
    steps: &[f32],
    vals: &[f32],
    refusal: &mut [usize],
) -> u8
    ensures { (mode : EdgeMode) → record { number = result; refusal = refusal.new; written = tt }
        ≡ new_leaves
        (regular_from binary32 axis_count counts.now starts.now steps.now vals.now mode) refusal.old }
{
    capi_f32::veltzuma_regular_new_f32(axis_count, counts, starts, steps, vals, refusal)
}

// The place of a query: origin, class and marks on every axis.
#[unsafe(no_mangle)]
pub extern "C" fn veltzuma_regular_get_loc_f32(
    axis_count: usize,
    counts: &[usize],
    starts: &[f32],
    steps: &[f32],
    vals: &[f32],
    mode: u8,
    x: &[f32],
    refusal: &mut [usize],
    origins: &mut [usize],
    classes: &mut [u8],
    marks: &mut [u8],
) -> u8
    ensures { record { number = result; refusal = refusal.new; written = ((origins.new, classes.new), marks.new) }
        ≡ get_loc_leaves
        (set_by (regular_from binary32 axis_count counts.now starts.now steps.now vals.now) mode)
        x.now refusal.old origins.old classes.old marks.old }
{
    capi_f32::veltzuma_regular_get_loc_f32(
        axis_count, counts, starts, steps, vals, mode, x, refusal, origins, classes, marks,
    )
}

// The value at a query, and its marks. Of a value that is a NaN the contract says that it is one, and leaves its payload open.
#[unsafe(no_mangle)]
pub extern "C" fn veltzuma_regular_interp_one_f32(
    axis_count: usize,
    counts: &[usize],
    starts: &[f32],
    steps: &[f32],
    vals: &[f32],
    mode: u8,
    x: &[f32],
    refusal: &mut [usize],
    value: &mut [f32],
    marks: &mut [u8],
) -> u8
    ensures { record { number = result; refusal = refusal.new; written = (value.new, marks.new) }
        ≡ interp_one_leaves binary32
        (set_by (regular_from binary32 axis_count counts.now starts.now steps.now vals.now) mode)
        x.now refusal.old value.old marks.old }
{
    capi_f32::veltzuma_regular_interp_one_f32(
        axis_count, counts, starts, steps, vals, mode, x, refusal, value, marks,
    )
}

// The gradient at a query, and its marks. Of a component that is a NaN the contract says that it is one, and leaves its payload open.
#[unsafe(no_mangle)]
pub extern "C" fn veltzuma_regular_interp_one_grad_f32(
    axis_count: usize,
    counts: &[usize],
    starts: &[f32],
    steps: &[f32],
    vals: &[f32],
    mode: u8,
    x: &[f32],
    refusal: &mut [usize],
    gradient: &mut [f32],
    marks: &mut [u8],
) -> u8
    ensures { record { number = result; refusal = refusal.new; written = (gradient.new, marks.new) }
        ≡ interp_one_grad_leaves binary32
        (set_by (regular_from binary32 axis_count counts.now starts.now steps.now vals.now) mode)
        x.now refusal.old gradient.old marks.old }
{
    capi_f32::veltzuma_regular_interp_one_grad_f32(
        axis_count, counts, starts, steps, vals, mode, x, refusal, gradient, marks,
    )
}

// Value and gradient at a query, their marks and the number of four-term sums that they took together, which is 0 on every refusal but 7. Of a number
// that is a NaN the contract says that it is one, and leaves its payload open.
#[unsafe(no_mangle)]
pub extern "C" fn veltzuma_regular_interp_one_with_grad_f32(
    axis_count: usize,
    counts: &[usize],
    starts: &[f32],
    steps: &[f32],
    vals: &[f32],
    mode: u8,
    x: &[f32],
    refusal: &mut [usize],
    value: &mut [f32],
    gradient: &mut [f32],
    marks: &mut [u8],
    sums: &mut [usize],
) -> u8
    ensures { record { number = result; refusal = refusal.new; written = (((value.new, gradient.new), sums.new), marks.new) }
        ≡ interp_one_with_grad_leaves binary32
        (set_by (regular_from binary32 axis_count counts.now starts.now steps.now vals.now) mode)
        x.now refusal.old value.old gradient.old marks.old sums.old }
{
    capi_f32::veltzuma_regular_interp_one_with_grad_f32(
        axis_count, counts, starts, steps, vals, mode, x, refusal, value, gradient, marks, sums,
    )
}

// The values of a batch. Of a value that is a NaN the contract says that it is one, and leaves its payload open.
#[unsafe(no_mangle)]
pub extern "C" fn veltzuma_regular_interp_f32(
    axis_count: usize,
    counts: &[usize],
    starts: &[f32],
    steps: &[f32],
    vals: &[f32],
    mode: u8,
    queries: &[f32],
    refusal: &mut [usize],
    out: &mut [f32],
) -> u8
    ensures { record { number = result; refusal = refusal.new; written = out.new }
        ≡ interp_leaves binary32
        (set_by (regular_from binary32 axis_count counts.now starts.now steps.now vals.now) mode)
        queries.now refusal.old out.old }
{
    capi_f32::veltzuma_regular_interp_f32(
        axis_count, counts, starts, steps, vals, mode, queries, refusal, out,
    )
}

// The gradients of a batch. Of a component that is a NaN the contract says that it is one, and leaves its payload open.
#[unsafe(no_mangle)]
pub extern "C" fn veltzuma_regular_interp_grad_f32(
    axis_count: usize,
    counts: &[usize],
    starts: &[f32],
    steps: &[f32],
    vals: &[f32],
    mode: u8,
    queries: &[f32],
    refusal: &mut [usize],
    out: &mut [f32],
) -> u8
    ensures { record { number = result; refusal = refusal.new; written = out.new }
        ≡ interp_grad_leaves binary32
        (set_by (regular_from binary32 axis_count counts.now starts.now steps.now vals.now) mode)
        queries.now refusal.old out.old }
{
    capi_f32::veltzuma_regular_interp_grad_f32(
        axis_count, counts, starts, steps, vals, mode, queries, refusal, out,
    )
}

// Takes a grid or turns it away.
#[unsafe(no_mangle)]
pub extern "C" fn veltzuma_rectilinear_new_f32(
    axis_count: usize,
    counts: &[usize],
    axes: &[f32],
    vals: &[f32],
    refusal: &mut [usize],
) -> u8
    ensures { (mode : EdgeMode) → record { number = result; refusal = refusal.new; written = tt }
        ≡ new_leaves
        (rectilinear_from binary32 axis_count counts.now axes.now vals.now mode) refusal.old }
{
    capi_f32::veltzuma_rectilinear_new_f32(axis_count, counts, axes, vals, refusal)
}

// The place of a query: origin, class and marks on every axis.
#[unsafe(no_mangle)]
pub extern "C" fn veltzuma_rectilinear_get_loc_f32(
    axis_count: usize,
    counts: &[usize],
    axes: &[f32],
    vals: &[f32],
    mode: u8,
    x: &[f32],
    refusal: &mut [usize],
    origins: &mut [usize],
    classes: &mut [u8],
    marks: &mut [u8],
) -> u8
    ensures { record { number = result; refusal = refusal.new; written = ((origins.new, classes.new), marks.new) }
        ≡ get_loc_leaves
        (set_by (rectilinear_from binary32 axis_count counts.now axes.now vals.now) mode)
        x.now refusal.old origins.old classes.old marks.old }
{
    capi_f32::veltzuma_rectilinear_get_loc_f32(
        axis_count, counts, axes, vals, mode, x, refusal, origins, classes, marks,
    )
}

// The value at a query, and its marks. Of a value that is a NaN the contract says that it is one, and leaves its payload open.
#[unsafe(no_mangle)]
pub extern "C" fn veltzuma_rectilinear_interp_one_f32(
    axis_count: usize,
    counts: &[usize],
    axes: &[f32],
    vals: &[f32],
    mode: u8,
    x: &[f32],
    refusal: &mut [usize],
    value: &mut [f32],
    marks: &mut [u8],
) -> u8
    ensures { record { number = result; refusal = refusal.new; written = (value.new, marks.new) }
        ≡ interp_one_leaves binary32
        (set_by (rectilinear_from binary32 axis_count counts.now axes.now vals.now) mode)
        x.now refusal.old value.old marks.old }
{
    capi_f32::veltzuma_rectilinear_interp_one_f32(
        axis_count, counts, axes, vals, mode, x, refusal, value, marks,
    )
}

// The gradient at a query, and its marks. Of a component that is a NaN the contract says that it is one, and leaves its payload open.
#[unsafe(no_mangle)]
pub extern "C" fn veltzuma_rectilinear_interp_one_grad_f32(
    axis_count: usize,
    counts: &[usize],
    axes: &[f32],
    vals: &[f32],
    mode: u8,
    x: &[f32],
    refusal: &mut [usize],
    gradient: &mut [f32],
    marks: &mut [u8],
) -> u8
    ensures { record { number = result; refusal = refusal.new; written = (gradient.new, marks.new) }
        ≡ interp_one_grad_leaves binary32
        (set_by (rectilinear_from binary32 axis_count counts.now axes.now vals.now) mode)
        x.now refusal.old gradient.old marks.old }
{
    capi_f32::veltzuma_rectilinear_interp_one_grad_f32(
        axis_count, counts, axes, vals, mode, x, refusal, gradient, marks,
    )
}

// Value and gradient at a query, their marks and the number of four-term sums that they took together, which is 0 on every refusal but 7. Of a number
// that is a NaN the contract says that it is one, and leaves its payload open.
#[unsafe(no_mangle)]
pub extern "C" fn veltzuma_rectilinear_interp_one_with_grad_f32(
    axis_count: usize,
    counts: &[usize],
    axes: &[f32],
    vals: &[f32],
    mode: u8,
    x: &[f32],
    refusal: &mut [usize],
    value: &mut [f32],
    gradient: &mut [f32],
    marks: &mut [u8],
    sums: &mut [usize],
) -> u8
    ensures { record { number = result; refusal = refusal.new; written = (((value.new, gradient.new), sums.new), marks.new) }
        ≡ interp_one_with_grad_leaves binary32
        (set_by (rectilinear_from binary32 axis_count counts.now axes.now vals.now) mode)
        x.now refusal.old value.old gradient.old marks.old sums.old }
{
    capi_f32::veltzuma_rectilinear_interp_one_with_grad_f32(
        axis_count, counts, axes, vals, mode, x, refusal, value, gradient, marks, sums,
    )
}

// The values of a batch. Of a value that is a NaN the contract says that it is one, and leaves its payload open.
#[unsafe(no_mangle)]
pub extern "C" fn veltzuma_rectilinear_interp_f32(
    axis_count: usize,
    counts: &[usize],
    axes: &[f32],
    vals: &[f32],
    mode: u8,
    queries: &[f32],
    refusal: &mut [usize],
    out: &mut [f32],
) -> u8
    ensures { record { number = result; refusal = refusal.new; written = out.new }
        ≡ interp_leaves binary32
        (set_by (rectilinear_from binary32 axis_count counts.now axes.now vals.now) mode)
        queries.now refusal.old out.old }
{
    capi_f32::veltzuma_rectilinear_interp_f32(
        axis_count, counts, axes, vals, mode, queries, refusal, out,
    )
}

// The gradients of a batch. Of a component that is a NaN the contract says that it is one, and leaves its payload open.
#[unsafe(no_mangle)]
pub extern "C" fn veltzuma_rectilinear_interp_grad_f32(
    axis_count: usize,
    counts: &[usize],
    axes: &[f32],
    vals: &[f32],
    mode: u8,
    queries: &[f32],
    refusal: &mut [usize],
    out: &mut [f32],
) -> u8
    ensures { record { number = result; refusal = refusal.new; written = out.new }
        ≡ interp_grad_leaves binary32
        (set_by (rectilinear_from binary32 axis_count counts.now axes.now vals.now) mode)
        queries.now refusal.old out.old }
{
    capi_f32::veltzuma_rectilinear_interp_grad_f32(
        axis_count, counts, axes, vals, mode, queries, refusal, out,
    )
}
