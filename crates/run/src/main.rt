// The run program: a session on standard input, its course on standard output. It reads and writes; all else is in
// `session`. It has no exit status of its own: whatever it wrote, it ends with 0, unless a read or a write fails.
#![tactic(auto)]

ghost use Rattle.std.specs.Prelude.{◌≡◌, List, ℕ, IfOk};
ghost use Rattle.session.specs.Program.{turn};

use session::program::{PART_BYTES, Program, Turn};
use std::io::{self, Read, Write};

fn write(rt: &HostRuntime, turn: &Turn) -> io::Result<()> {
    io::writer(rt).write_all(turn.output.as_slice())
}

// The turn of some bytes: no contract can say that they are the input's.
fn read(rt: &HostRuntime, program: Program) -> io::Result<Turn>
    ensures { IfOk result (λ t. (bytes : List ℕ) × (t ≡ turn program bytes)) }
{
    let mut part = [0u8; PART_BYTES];
    let count = rt.reader().read(&mut part)?;
    Ok(program.read(&part, count))
}

// A proved loop has to end, and nothing says that the input does: no run uses up so many reads.
fn main(rt: HostRuntime) -> io::Result<()> {
    let mut turn = Program::start();
    write(&rt, &turn)?;
    for _ in 0..u64::MAX {
        if turn.over {
            break;
        }
        turn = read(&rt, turn.program)?;
        write(&rt, &turn)?;
    }
    Ok(())
}
