// Fields of bytes: numbers of two bytes, and tests whose error is of the reader's own type.
ghost use Rattle.std.specs.Prelude.{◌≡◌, true, OnOk};
ghost use Rattle.std.specs.Result.{result_err};
ghost use Rattle.graph.specs.Bytes.{pair};
ghost use Rattle.graph.specs.Tests.{error_unless};

// The two bytes from `at` on as a number, the high byte first. A byte past the end reads as 0.
pub fn pair_at(bytes: &[u8], at: usize) -> u16
    ensures { result ≡ pair bytes.now at }
{
    match bytes.get(at..) {
        Some([high, low, ..]) => u16::from_be_bytes([*high, *low]),
        Some([high]) => u16::from_be_bytes([*high, 0]),
        _ => 0,
    }
}

// The error, unless the test passes.
pub fn error_unless<E: Drop>(ok: bool, error: E) -> Result<(), E>
    ensures fault { result_err result ≡ error_unless ok error }
    ensures passed { OnOk result (ok ≡ true) }
{
    if ok { Ok(()) } else { Err(error) }
}
