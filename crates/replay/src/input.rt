// Lines of standard input, which come in pieces.
ghost use Rattle.std.specs.Prelude.{◌≤◌};
ghost use Rattle.std.specs.Option.{ForSome};

use replay_lines::output::Output;
use replay_requests::requests;
use std::io::Read;

// The bytes of a line that are there. A line that does not fit its buffer has none, and stays so until it ends.
#[derive(Drop)]
pub struct Line {
    bytes: [u8; 131072],
    len: Option<usize>,
    ghost fits: { ForSome len (λ n. n ≤ 131072) },
}

impl Line {
    pub fn new() -> Line {
        Line {
            bytes: [0; 131072],
            len: Some(0),
        }
    }

    // The answer to the line, which begins anew.
    fn answer(&mut self, text: &mut [u8], out: &mut Output) {
        match self.len {
            Some(n) => requests::answer(&self.bytes[..n], text, out),
            None => out.put_all(b"malformed: a line too long\n"),
        }
        self.len = Some(0);
    }

    // A newline ends the line, and any other byte is kept where there is room.
    fn take(&mut self, byte: u8, text: &mut [u8], out: &mut Output) {
        if byte == b'\n' {
            self.answer(text, out);
            return;
        }
        match self.len {
            Some(n) if n < self.bytes.len() => {
                self.bytes[n] = byte;
                self.len = Some(n + 1);
            }
            _ => self.len = None,
        }
    }
}

// The lines that end in what came are answered before more input is waited for, and what is left at the input's end is a line too. A proved loop has
// to end, and nothing says that an input does. So the loop counts its turns, up to a number that no run uses up.
pub fn answer_all(
    rt: &HostRuntime,
    chunk: &mut [u8],
    line: &mut Line,
    text: &mut [u8],
    out: &mut Output,
) {
    for _ in 0..u64::MAX {
        let n = rt.stdin().read(chunk).unwrap_or(0).min(chunk.len());
        if n == 0 {
            break;
        }
        for byte in &chunk[..n] {
            line.take(*byte, text, out);
        }
        out.flush();
    }
    if line.len != Some(0) {
        line.answer(text, out);
    }
    out.flush();
}
