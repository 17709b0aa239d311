//! What a command starts from: the declarations of its IDL, and the service of names that have none before them.
ghost use Rattle.std.specs.Prelude.{◌≡◌, ◌<◌, ◌≤◌, Some, ℕ, List, Option, IfSome, IfOk, length};
ghost use Rattle.type_tables.specs.Known.{built_in};
ghost use Rattle.gate_start.specs.Calls.{OnReport};
ghost use Rattle.gate_start.specs.Starting.{HasCause, Halts, IsRead, IsDeclared, IsStart, IsToldBy};

use crate::status::{Ending, end_with, say, usage};
use gate_base::{OutOfMemory, Text};
use gate_idl::{Refusal, Stop, open};
use gate_io::{Files, Sink};
use gate_words::Declared;
use std::alloc::Global;
use type_tables::{Schema, SchemaBuilder, ServiceId};

/// What a command starts from.
#[derive(Drop)]
pub struct Start {
    pub schema: Schema,
    pub service: Option<ServiceId>,
}

/// Why a command doesn't start.
#[derive(Drop)]
pub enum NoStart {
    /// The IDL is refused.
    Refused(Refusal),
    /// No service has the name that the words give.
    UnknownService,
    /// A fetch failed.
    FileFault,
    OutOfMemory,
}

/// Reads the IDL that the words name, if they name one, and finds the service.
///
/// Without an IDL nothing is declared but the built-in failure. Without a service in the words it is the only one of the
/// root file, if there is exactly one.
pub fn prepare<F: Files>(alloc: Global, files: &mut F, words: &Declared) -> Result<Start, NoStart>
    ensures told { (holds : List ℕ → Option (List ℕ)) → IsToldBy (F.holds files.old) words.now.idl holds → IsStart holds words.now result }
    ensures known { IfOk result (λ s. IfSome s.service (λ x. x.0 < length s.schema.services)) }
    ensures same { F.holds files.new ≡ F.holds files.old }
    ensures later { F.faults files.old ≤ F.faults files.new }
    ensures cause { HasCause result (F.faults files.old) (F.faults files.new) }
{
    let schema = declarations(alloc, files, &words.idl)?;
    match &words.service {
        Some(name) => match schema.service(name.as_slice()) {
            Some(service) => Ok(Start {
                schema,
                service: Some(service),
            }),
            None => Err(NoStart::UnknownService),
        },
        None => {
            let service = schema.only_service();
            Ok(Start { schema, service })
        }
    }
}

// What is declared.
fn declarations<F: Files>(
    alloc: Global,
    files: &mut F,
    idl: &Option<Text>,
) -> Result<Schema, NoStart>
    ensures told { (holds : List ℕ → Option (List ℕ)) → IsToldBy (F.holds files.old) idl.now holds → IsDeclared holds idl.now result }
    ensures same { F.holds files.new ≡ F.holds files.old }
    ensures later { F.faults files.old ≤ F.faults files.new }
    ensures cause { HasCause result (F.faults files.old) (F.faults files.new) }
{
    match idl {
        Some(name) => read_idl(alloc, files, name.as_slice()),
        None => match undeclared(alloc) {
            Ok(schema) => Ok(schema),
            Err(OutOfMemory) => Err(NoStart::OutOfMemory),
        },
    }
}

/// What a file and all that it includes declare.
pub fn read_idl<F: Files>(alloc: Global, files: &mut F, name: &[u8]) -> Result<Schema, NoStart>
    ensures told { (holds : List ℕ → Option (List ℕ)) → F.holds files.old ≡ Some holds → IsRead holds name.now result }
    ensures same { F.holds files.new ≡ F.holds files.old }
    ensures later { F.faults files.old ≤ F.faults files.new }
    ensures cause { HasCause result (F.faults files.old) (F.faults files.new) }
{
    match open(alloc, files, name) {
        Ok(schema) => Ok(schema),
        Err(Stop::Refused(refusal)) => Err(NoStart::Refused(refusal)),
        Err(Stop::FileFault) => Err(NoStart::FileFault),
        Err(Stop::OutOfMemory) => Err(NoStart::OutOfMemory),
    }
}

// A schema in which nothing but the built-in failure is declared.
fn undeclared(alloc: Global) -> Result<Schema, OutOfMemory>
    ensures { IfOk result (λ schema. schema ≡ built_in) }
{
    Ok(SchemaBuilder::new(alloc)?.finish(0))
}

/// Ends a command that doesn't start.
pub fn halt<E: Sink>(alloc: Global, stop: &NoStart, report: &mut E) -> Ending
    ensures halts { OnReport E.Sink (Halts stop.now) report.old report.new result }
    ensures later { E.faults report.old ≤ E.faults report.new }
{
    match stop {
        NoStart::Refused(refusal) => refuse(alloc, refusal, report),
        NoStart::UnknownService => usage(report),
        NoStart::FileFault => end_with(report, Ending::FileFault),
        NoStart::OutOfMemory => end_with(report, Ending::OutOfMemory),
    }
}

// Reports why an IDL is refused.
fn refuse<E: Sink>(alloc: Global, refusal: &Refusal, report: &mut E) -> Ending
    ensures halts { OnReport E.Sink (Halts (NoStart.Refused refusal.now)) report.old report.new result }
    ensures later { E.faults report.old ≤ E.faults report.new }
{
    match refusal.line(alloc) {
        Ok(line) => say(report, line.bytes(), Ending::Refused),
        Err(OutOfMemory) => end_with(report, Ending::OutOfMemory),
    }
}
