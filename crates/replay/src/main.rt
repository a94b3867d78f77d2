// Answers request lines from standard input, one line each, before it waits for more: `tokens HEX`, `count HEX`, `statement INDEX HEX`, `print HEX`
// and `print HEX N`, `profile HEX`, `resolve HEX MARKS BLOCK LISTS` and `resolve HEX MARKS BLOCK LISTS G,E,N,W`, and
// for what the programs write `line HEX`, `line-profile HEX`, and `line-ground`, `line-effects` and `line-notes` with `HEX MARKS BLOCK LISTS`. Each may stand behind `under N`, the ceiling for
// counts, which is 64 otherwise. A line that is no request is answered too, and stops nothing. A line has room for the longest text with the
// largest context.
#![tactic(auto)]

use input::Line;
use replay_lines::output::Output;

mod input;

fn main(rt: HostRuntime) {
    let mut chunk = io::large_buffer();
    let mut line = Line::new();
    let mut text = io::large_buffer();
    let mut out = Output::new();
    input::answer_all(&rt, &mut chunk, &mut line, &mut text, &mut out);
}
