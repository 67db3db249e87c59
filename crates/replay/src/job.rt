// The lines of a job, and which of them make a machine.
ghost use Rattle.std.specs.Prelude.{IfSome, Ok};
ghost use Rattle.replay.specs.Commands.{words_of};
ghost use Rattle.replay.specs.MachineCommands.{AsksMachine};
ghost use Rattle.replay.specs.declared.machine_command.MachineCommand.TheVariants as command;

use crate::machine_command::{Core, MachineCommand, parse_machine};
use std::io;
use std::io::{BufRead, BufReader};
use std::str::from_utf8;

// Reads all lines of the job from standard input. It takes the host's own runtime, which alone has that as a stream of bytes.
pub fn read_lines(rt: &HostRuntime) -> io::Result<Vec<Vec<u8>>> {
    let heap = rt.alloc();
    BufReader::new(heap, rt.stdin())?
        .split(heap, b'\n')
        .try_collect(heap)
}

// The core language of the machine that a line makes; none for any other line.
pub fn core_of(line: &[u8]) -> Option<Core>
    ensures { IfSome result (λ core. AsksMachine (words_of line.now) (Ok (command.Core core))) }
{
    match parse_machine(from_utf8(line).ok()?)? {
        Ok(MachineCommand::Core(core)) => Some(core),
        _ => None,
    }
}
