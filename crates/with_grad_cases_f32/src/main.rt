// f32: written by tools/width from crates/with_grad_cases/src/main.rt; what has no float is called there.
// Runs the cases of value and slope in one call (cases_with_grad).
// One line for each case, and how many agree.
#![tactic(auto)]

use cases_calls::{Score, told_all};
use cases_with_grad_f32::with_grad_cases;
use std::io;

fn main(rt: HostRuntime) -> io::Result<()> {
    let mut score = Score::default();
    with_grad_cases(&rt, &mut score)?;
    told_all(&rt, score)
}
