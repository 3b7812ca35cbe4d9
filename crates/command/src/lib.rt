// What the programs do alike: they read standard input up to a limit, and end with an exit code.
#![tactic(auto)]

ghost use Rattle.std.specs.Prelude.{◌≡◌, IfOk, IfSome, string_bytes, take, if◌then◌else◌, is_ok};
ghost use Rattle.std.specs.Option.{option_map};
ghost use Rattle.std.specs.Process.{exit_status};

use std::alloc::Global;
use std::io::Read;
use std::process::ExitCode;
use std::{fmt, io};

// How many bytes of its input a program reads. It ignores the rest.
pub const MOST: u64 = 65536;

// The bytes of the input, up to `MOST`. Which bytes those are is told where the input's type tells what it has left.
pub fn read_input<R: Read + Drop>(alloc: Global, input: R) -> io::Result<Vec<u8>>
    ensures { IfOk result (λ bytes. IfSome (option_map (take MOST) (R.remaining input)) (λ front. bytes.items ≡ front)) }
{
    let mut bytes = Vec::new(alloc);
    input.take(MOST).read_to_end(&mut bytes)?;
    Ok(bytes)
}

// The same as a text. Bytes that are no text are an error.
pub fn read_text<R: Read + Drop>(alloc: Global, input: R) -> io::Result<String>
    ensures { IfOk result (λ text. IfSome (option_map (take MOST) (R.remaining input)) (λ front. string_bytes text ≡ front)) }
{
    io::read_to_string(alloc, input.take(MOST))
}

// The exit code of a program. Its error goes to standard error, on a line that the program's name begins.
pub fn finish<E: fmt::Display + Drop>(
    rt: &impl Eprint,
    name: &str,
    outcome: Result<(), E>,
) -> ExitCode
    ensures { exit_status result ≡ (if is_ok outcome then 0 else 1) }
{
    match outcome {
        Ok(()) => ExitCode::SUCCESS,
        Err(error) => {
            let _ = eprintln!(rt; "{name}: {error}");
            ExitCode::FAILURE
        }
    }
}

#[cfg(test)]
mod tests {
    use super::*;
    use std::alloc::AllocError;
    use std::cell::RefCell;
    use std::test::Fail;

    #[test]
    fn reads_bytes(rt: HostRuntime) -> Result<(), Fail> {
        let bytes = read_input(rt.alloc(), b"some\xff".as_slice())?;
        assert_eq!(rt; bytes.as_slice(), b"some\xff".as_slice());
        Ok(())
    }

    #[test]
    fn reads_text(rt: HostRuntime) -> Result<(), Fail> {
        let text = read_text(rt.alloc(), b"some".as_slice())?;
        assert_eq!(rt; text.as_str(), "some");
        Ok(())
    }

    // Standard error that keeps its text.
    #[derive(Drop)]
    struct Screen {
        text: RefCell<String>,
    }

    impl Eprint for Screen {
        fn eprint<D: fmt::Display + Drop>(&self, value: D) -> io::Result<()> {
            let Ok(mut text) = self.text.try_borrow_mut() else {
                return Err(io::Error::from(io::ErrorKind::Other));
            };
            write!(text, "{value}")?;
            Ok(())
        }

        fn eprintln<D: fmt::Display + Drop>(&self, value: D) -> io::Result<()> {
            self.eprint(value)?;
            self.eprint("\n")
        }
    }

    #[test]
    fn finishes(rt: HostRuntime) -> Result<(), Fail> {
        let screen = Screen {
            text: RefCell::new(String::new(rt.alloc())),
        };
        let success: Result<(), AllocError> = Ok(());
        let failure: Result<(), AllocError> = Err(AllocError);
        assert!(rt; finish(&screen, "command", success) == ExitCode::SUCCESS);
        assert!(rt; finish(&screen, "command", failure) == ExitCode::FAILURE);
        let text = screen.text.into_inner();
        assert_eq!(rt; text.as_str(), "command: memory allocation failed\n");
        Ok(())
    }
}
