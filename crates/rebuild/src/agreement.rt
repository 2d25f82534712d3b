//! Both maps asked for the printout of one journal.
ghost use Rattle.std.specs.Prelude.{◌≡◌, true, IfOk};

use crate::runs::run_with;
use std::alloc::{AllocError, Global};

/// Whether the two maps print the same of a journal. They do, whatever its bytes and however many places they have.
pub fn agree(heap: Global, places: usize, journal: &[u8]) -> Result<bool, AllocError>
    ensures value { IfOk result (λ same. same ≡ true) }
{
    let built = run_with(heap, places, journal)?;
    let kept = replay::run_with(heap, places, journal)?;
    replay::one_printout();
    Ok(built.as_slice() == kept.as_slice())
}
