// Fields of bytes, each first there and then tested.
ghost use Rattle.std.specs.Prelude.{◌≡◌, ◌≤◌, true, length, OnOk};
ghost use Rattle.std.specs.Result.{result_err};
ghost use Rattle.meanings.specs.Fields.{unless, reach};

use graph::fault::{Cause, Fault};
use graph::fields::error_unless;

// A test of a value: its fault, unless it passes.
pub fn test(ok: bool, cause: Cause, place: usize) -> Result<(), Fault>
    ensures fault { result_err result ≡ unless ok cause place }
    ensures passed { OnOk result (ok ≡ true) }
{
    error_unless(ok, Fault::new(cause, place))
}

// The bytes up to `end` are there.
pub fn reach_to(bytes: &[u8], end: usize) -> Result<(), Fault>
    ensures fault { result_err result ≡ reach bytes.now end }
    ensures passed { OnOk result (end ≤ length bytes.now) }
{
    test(end <= bytes.len(), Cause::Short, bytes.len())
}
