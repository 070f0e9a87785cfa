// The lines of standard input, as bytes.
ghost use Rattle.std.specs.Prelude.{◌≡◌, IfErr};
ghost use Rattle.std.specs.IoError.{error_kind};

use lines::fields::without_end;
use std::io;
use std::io::{BufRead, BufReader, ErrorKind, Stdin};

// The input, and the line of it that was read last.
#[derive(Drop)]
pub struct Input {
    reader: BufReader<Stdin>,
    line: Vec<u8>,
}

impl Input {
    // It fails only where there is no memory for the reader's buffer.
    pub fn new(rt: &HostRuntime) -> io::Result<Input>
        ensures { IfErr result (λ e. error_kind e ≡ ErrorKind.OutOfMemory) }
    {
        let reader = BufReader::new(rt.alloc(), rt.stdin())?;
        Ok(Input {
            reader,
            line: Vec::new(rt.alloc()),
        })
    }

    // The next line without its end; none at the end of the input.
    pub fn next_line(&mut self) -> io::Result<Option<&[u8]>> {
        self.line.clear();
        let count = self.reader.read_until(b'\n', &mut self.line)?;
        if count == 0 {
            return Ok(None);
        }
        Ok(Some(without_end(self.line.as_slice())))
    }
}
