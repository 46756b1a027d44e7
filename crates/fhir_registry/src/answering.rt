//! Lines that a registry answers.

ghost use Rattle.std.specs.Prelude.{◌≡◌, Some, IfOk, OnErr};
ghost use Rattle.fhir_commands.specs.Commands.{line_command, command_seen};
ghost use Rattle.fhir_commands.specs.Replies.{line_seen};
ghost use Rattle.fhir_registry.specs.Lines.{AnswersCommand, AnswersLine};

use crate::registry::Registry;
use fhir_commands::{Command, LINE_FAULT, Line, MEMORY_FAULT, fixed_lines};
use fhir_json::NoMemory;
use fhir_serve::Service;
use std::alloc::Global;
use std::io;
use std::io::Write;

// The line of the reply to a command. Where definitions are changed it takes no memory, so that what was done is always told.
fn apply_line(
    registry: &mut Registry,
    alloc: Global,
    command: Command<'_>,
) -> Result<Line, NoMemory>
    ensures told { IfOk result (λ written. AnswersCommand registry.old (Some (command_seen command.entry)) registry.new (line_seen written)) }
    ensures unchanged { OnErr result (registry.new.definitions ≡ registry.old.definitions) }
    ensures texts { registry.new.texts ≡ registry.old.texts }
{
    registry.apply(alloc, command)?.line(alloc)
}

// The answer to a line, unless memory runs out.
fn answer_line(registry: &mut Registry, alloc: Global, line: &[u8]) -> Result<Line, NoMemory>
    ensures told { IfOk result (λ written. AnswersCommand registry.old (line_command line.now) registry.new (line_seen written)) }
    ensures unchanged { OnErr result (registry.new.definitions ≡ registry.old.definitions) }
    ensures texts { registry.new.texts ≡ registry.old.texts }
{
    fixed_lines();
    match Command::of_line(alloc, line)? {
        Some(Command::Ask(question)) => registry.ask_line(alloc, question),
        Some(command) => apply_line(registry, alloc, command),
        None => Ok(Line::Fixed(LINE_FAULT)),
    }
}

// The same, and once more without what is kept, where memory runs out.
fn answer_at_last(registry: &mut Registry, alloc: Global, line: &[u8]) -> Result<Line, NoMemory>
    ensures told { IfOk result (λ written. AnswersCommand registry.old (line_command line.now) registry.new (line_seen written)) }
    ensures unchanged { OnErr result (registry.new.definitions ≡ registry.old.definitions) }
    ensures texts { registry.new.texts ≡ registry.old.texts }
{
    match answer_line(registry, alloc, line) {
        Ok(line) => Ok(line),
        Err(NoMemory) => {
            registry.forget_kept();
            answer_line(registry, alloc, line)
        }
    }
}

// The same, which is told where memory runs out.
fn answered(registry: &mut Registry, alloc: Global, line: &[u8]) -> Line
    ensures { AnswersLine registry.old line.now registry.new (line_seen result) }
{
    fixed_lines();
    match answer_at_last(registry, alloc, line) {
        Ok(line) => line,
        Err(NoMemory) => Line::Fixed(MEMORY_FAULT),
    }
}

impl Service for Registry {
    ghost use Rattle.fhir_registry.specs.Lines.{AnswersLine};

    ghost answers = { λ p line q written. AnswersLine p line q written };

    fn answer<W: Write>(&mut self, alloc: Global, line: &[u8], out: &mut W) -> io::Result<()> {
        let line = answered(self, alloc, line);
        out.write_all(line.as_bytes())
    }

    fn unheld<W: Write>(&mut self, out: &mut W) -> io::Result<()> {
        fixed_lines();
        self.forget_kept();
        out.write_all(MEMORY_FAULT.as_bytes())
    }
}
