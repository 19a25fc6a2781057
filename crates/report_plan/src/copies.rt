// Copies of ways.
ghost use Rattle.std.specs.Prelude.{◌≡◌, IfOk};

use report_spec::{Choices, Way};
use std::alloc::{AllocError, Global};

/// A way with the same steps and choices.
pub(crate) fn copy_way(alloc: Global, way: &Way) -> Result<Way, AllocError>
    ensures { IfOk result (λ copy. copy ≡ way.now) }
{
    let letters = way.choices.letters().to_vec(alloc)?;
    Ok(Way {
        steps: way.steps,
        choices: Choices::from_letters(letters),
    })
}
