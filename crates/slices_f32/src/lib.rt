// f32: written by tools/width from crates/slices/src/lib.rt; what has no float is called there.
// What slices of any length add to the calls: arrays gathered from them, and the refusals of those that are too short. The setting comes as a
// number; one that names none is refused with them.
#![tactic(auto)]

ghost use Rattle.std.specs.Prelude.{◌≡◌};
ghost use Rattle.slices.specs.Axes.{axis_from, axes_from};
ghost use Rattle.slices.specs.Slices.{query_from};

use multicubic::Axis;
use slices::entry_or;

// Four coordinates.
pub fn query_from(x: &[f32]) -> [f32; 4]
    ensures { result ≡ query_from x.now }
{
    [
        entry_or(x, 0, 0.0),
        entry_or(x, 1, 0.0),
        entry_or(x, 2, 0.0),
        entry_or(x, 3, 0.0),
    ]
}

fn axis_from(counts: &[usize], starts: &[f32], steps: &[f32], i: usize) -> Axis<f32>
    ensures { result ≡ axis_from counts.now starts.now steps.now i }
{
    Axis {
        start: entry_or(starts, i, 0.0),
        step: entry_or(steps, i, 0.0),
        count: entry_or(counts, i, 1),
    }
}

// Four regular axes.
pub fn axes_from(counts: &[usize], starts: &[f32], steps: &[f32]) -> [Axis<f32>; 4]
    ensures { result ≡ axes_from counts.now starts.now steps.now }
{
    [
        axis_from(counts, starts, steps, 0),
        axis_from(counts, starts, steps, 1),
        axis_from(counts, starts, steps, 2),
        axis_from(counts, starts, steps, 3),
    ]
}
