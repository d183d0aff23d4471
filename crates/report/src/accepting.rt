// What the programs go on with, once a file was opened or refused.
ghost use Rattle.std.specs.Prelude.{IfOk};
ghost use Rattle.report.specs.Files.{Accepted};

use crate::file::OpenError;
use crate::lines::fault_line;
use crate::source::Source;
use std::alloc::AllocError;
use std::io;

// What was opened; a refused file prints its fault line and gives nothing.
pub fn accepted<T>(
    rt: &HostRuntime,
    source: Source,
    opened: Result<T, OpenError>,
) -> io::Result<Option<T>>
    ensures { IfOk result (Accepted opened) }
{
    // Three outcomes, of which two give a value.
    match opened {
        Ok(records) => Ok(Some(records)),
        Err(OpenError::Fault(fault)) => {
            rt.print(fault_line(rt.alloc(), source, &fault)?)?;
            Ok(None)
        }
        Err(OpenError::NoMemory) => Err(AllocError.into()),
    }
}
