//! How an adapter ends a call.

ghost use Rattle.serv_disk.specs.Faults.{HasCause};

use crate::failed::Failed;
use std::io;

/// Raises the count of faults where a call of the machine failed.
pub(crate) fn ended<T: Drop>(done: io::Result<T>, faults: &mut u64) -> Result<T, Failed>
    ensures { HasCause faults.old faults.new result }
{
    match done {
        Ok(value) => Ok(value),
        Err(_) => {
            *faults = faults.saturating_add(1);
            Err(Failed)
        }
    }
}

/// The same, and keeps the cause in mind.
pub(crate) fn noted<T: Drop>(
    done: io::Result<T>,
    faults: &mut u64,
    cause: &mut Option<io::Error>,
) -> Result<T, Failed>
    ensures { HasCause faults.old faults.new result }
{
    if let Err(error) = &done {
        *cause = Some(*error);
    }
    ended(done, faults)
}
