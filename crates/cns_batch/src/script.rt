//! Scripts, command by command.

ghost use Rattle.std.specs.Prelude.{◌≡◌, ◌+◌, ◌<◌, length};
ghost use Rattle.cns_input.specs.Sections.{raw_lines};
ghost use Rattle.cns_batch.specs.Run.{IsNextOf, commands_of, commands_left};

use crate::lines::Commands;
use cns_input::{Command, command_of, line_size, line_text};

impl<'a> Commands<'a> {
    /// All commands of a script, whose lines are numbered from 1.
    pub(crate) fn of(script: &'a [u8]) -> Commands<'a>
        ensures { commands_left result ≡ commands_of 1 (raw_lines script.now) }
    {
        Commands {
            rest: script,
            number: 1,
        }
    }

    /// The number of the next command's line and the command, where one is left. Lines without one are passed
    /// over.
    #[inline(always)]
    pub(crate) fn next_command(&mut self) -> Option<(u64, Command)>
        ensures { IsNextOf result (commands_left self.old) (commands_left self.new) }
    {
        while !self.rest.is_empty() {
            let (line, rest) = self.rest.split_at(line_size(self.rest));
            let number = self.number;
            self.rest = rest;
            self.number += 1;
            match command_of(line_text(line)) {
                Command::Skip => {}
                command => return Some((number, command)),
            }
        }
        None
    }
}
