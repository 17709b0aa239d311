//! The check of a whole message.
ghost use Rattle.std.specs.Prelude.{◌≡◌, ◌<◌, ◌≤◌, ◌^◌, ◌++◌, List, [], Some, None, IfOk, IfSome, length};
ghost use Rattle.std.specs.Vec.{vec_capacity};
ghost use Rattle.thrift_value.specs.Items.{item_of};
ghost use Rattle.protocol_traits.specs.Follow.{depth_after};
ghost use Rattle.type_tables.specs.Structs.{widest};
ghost use Rattle.type_walk.specs.Positions.{after};
ghost use Rattle.translate_verdicts.specs.Routes.{IsKnownRoute};
ghost use Rattle.translate_verdicts.specs.declared.route.Route.TheVariants.{ByName};
ghost use Rattle.conform_check.specs.declared.step.Step.{Step};
ghost use Rattle.conform_check.specs.Inside.{inside_after};
ghost use Rattle.conform_check.specs.Checking.{Finding, IsChecked, IsFoundOf, ChecksFrame, ChecksBody, LooksThrough, against, first_broken, found as found_of, kept_broken, last_steps, placed, undeclared};
ghost use Rattle.conform_check.specs.Fitting.{AreFitting};

use crate::breach::{Breach, Checked, Found};
use crate::looking::look;
use crate::step::Step;
use crate::trail::Trail;
use gate_base::OutOfMemory;
use protocol_traits::{DEPTH, Fault, WireRead};
use std::alloc::Global;
use std::marker::Model;
use thrift_value::Event;
use translate_verdicts::{Route, body_struct};
use type_tables::{Schema, ServiceId, StructId};
use type_walk::Walk;

/// Checks messages against a schema, one after another.
#[derive(Drop)]
pub struct Check<'s> {
    schema: &'s Schema,
    trail: Trail,
    path: Vec<Step>,
}

/// Clauses see the declarations, and the path of the last breach.
impl<'s> Model for Check<'s> {
    ghost use Rattle.std.specs.Prelude.{◌≡◌};
    ghost use Rattle.std.specs.Vec.{vec_capacity};
    ghost use Rattle.protocol_traits.specs.declared.nest.TheConstants.{DEPTH};
    ghost use Rattle.type_tables.specs.Structs.{widest};
    ghost use Rattle.conform_check.specs.Checking.{Checker};

    ghost Value = { Checker };

    ghost view = { λ c. record { schema = c.schema.now; path = c.path.items } };

    ghost invariant = { λ c. (c.trail.width ≡ widest c.schema.now.structs) × (vec_capacity c.path ≡ DEPTH) };
}

impl<'s> Check<'s> {
    /// A check by this schema, which has room for the fields of `DEPTH` structs of the greatest width, and for a path of `DEPTH`
    /// steps.
    ///
    /// `OutOfMemory`: that room was not found.
    pub fn open(alloc: Global, schema: &'s Schema) -> Result<Check<'s>, OutOfMemory>
        ensures schema { IfOk result (λ c. c.schema ≡ schema.now) }
        ensures path { IfOk result (λ c. c.path ≡ []) }
    {
        let trail = Trail::new(alloc, schema.width())?;
        let path = Vec::with_capacity(alloc, DEPTH)?;
        Ok(Check {
            schema,
            trail,
            path,
        })
    }

    /// Whether the frame is a message that meets what is declared of it, or the first way in which it doesn't.
    ///
    /// Names without a service before them are those of `service`, which is of the schema. `room` is the reader's, and has at least
    /// as many bytes as the frame. It takes no memory.
    pub fn check<'f, R: WireRead<'f>>(
        &mut self,
        service: Option<ServiceId>,
        frame: &'f [u8],
        room: &'f mut [u8],
    ) -> Checked
        requires service { IsKnownRoute self.old.schema (ByName service) }
        requires room { length frame.now ≤ length room.old }
        requires size { length frame.now < 2 ^ 31 }
        ensures exact { ChecksFrame R.ReadRules self.old.schema service frame.now result self.new.path }
        ensures schema { self.new.schema ≡ self.old.schema }
    {
        check_with::<R>(
            self.schema,
            service,
            frame,
            room,
            &mut self.trail,
            &mut self.path,
        )
    }

    /// The path of the breach that `check` told last, the outermost step first; empty behind any other answer. It has a step a level at most.
    pub fn path(&self) -> &[Step]
        ensures path { result.now ≡ self.now.path }
        ensures short { length result.now ≤ DEPTH }
    {
        self.path.as_slice()
    }
}

/// What is found of a frame, with the path of the breach where it is one.
fn check_with<'f, R: WireRead<'f>>(
    schema: &Schema,
    service: Option<ServiceId>,
    frame: &'f [u8],
    room: &'f mut [u8],
    trail: &mut Trail,
    path: &mut Vec<Step>,
) -> Checked
    requires service { IsKnownRoute schema.now (ByName service) }
    requires room { length frame.now ≤ length room.old }
    requires size { length frame.now < 2 ^ 31 }
    requires width { trail.old.width ≡ widest schema.now.structs }
    requires steps { DEPTH ≤ vec_capacity path.old }
    ensures exact { ChecksFrame R.ReadRules schema.now service frame.now result path.new.items }
    ensures width { trail.new.width ≡ trail.old.width }
    ensures steps { vec_capacity path.new ≡ vec_capacity path.old }
{
    path.clear();
    let mut reader = R::over(frame, room);
    let body = match reader.head() {
        Ok(head) => body_struct(schema, Route::ByName(service), &head),
        Err(fault) => return Checked::Unread(fault),
    };
    let checked = check_body(schema, body, trail, path, &mut reader);
    settle(checked, path)
}

/// What is found of a body of this struct, or of one that isn't declared, and of the end behind it. Where a fault is, the path is any.
fn check_body<'f, R: WireRead<'f>>(
    schema: &Schema,
    body: Option<StructId>,
    trail: &mut Trail,
    path: &mut Vec<Step>,
    reader: &mut R,
) -> Checked
    requires known { IfSome body (λ s. s.0 < length schema.now.structs) }
    requires begins { R.depth reader.old ≡ 1 }
    requires width { trail.old.width ≡ widest schema.now.structs }
    requires room { DEPTH ≤ vec_capacity path.old }
    requires empty { path.old.items ≡ [] }
    ensures exact { ChecksBody R.ReadRules schema.now body reader.old result path.new.items }
    ensures width { trail.new.width ≡ trail.old.width }
    ensures room { vec_capacity path.new ≡ vec_capacity path.old }
{
    let found = match look_through(schema, body, trail, path, reader) {
        Ok(found) => found,
        Err(fault) => return Checked::Refused(fault),
    };
    match reader.finish() {
        Ok(()) => checked_of(found),
        Err(fault) => Checked::Refused(fault),
    }
}

/// The same answer; its path is kept only where it is a breach.
fn settle(checked: Checked, path: &mut Vec<Step>) -> Checked
    ensures settled { (finding : Finding) → IsFoundOf checked path.old.items finding → IsChecked result path.new.items finding }
    ensures room { vec_capacity path.new ≡ vec_capacity path.old }
{
    match checked {
        Checked::Broken(breach) => Checked::Broken(breach),
        Checked::Meets => {
            path.clear();
            Checked::Meets
        }
        Checked::Refused(fault) => {
            path.clear();
            Checked::Refused(fault)
        }
        Checked::Unread(fault) => {
            path.clear();
            Checked::Unread(fault)
        }
    }
}

fn checked_of(found: Option<Breach>) -> Checked
    ensures { (path : List Step) → IsFoundOf result path (found_of (kept_broken found path)) }
{
    match found {
        Some(breach) => Checked::Broken(breach),
        None => Checked::Meets,
    }
}

/// Reads a body to its end, and answers the first breach, whose path it lays.
///
/// Behind a breach it reads on, for a fault that stands later goes before the breach. A walk is large, so only this function has one.
#[inline(never)]
fn look_through<'f, R: WireRead<'f>>(
    schema: &Schema,
    body: Option<StructId>,
    trail: &mut Trail,
    path: &mut Vec<Step>,
    reader: &mut R,
) -> Result<Option<Breach>, Fault>
    requires known { IfSome body (λ s. s.0 < length schema.now.structs) }
    requires begins { R.depth reader.old ≡ 1 }
    requires width { trail.old.width ≡ widest schema.now.structs }
    requires room { DEPTH ≤ vec_capacity path.old }
    requires empty { path.old.items ≡ [] }
    ensures exact { LooksThrough R.ReadRules schema.now body reader.old result reader.new path.new.items }
    ensures width { trail.new.width ≡ trail.old.width }
    ensures room { vec_capacity path.new ≡ vec_capacity path.old }
{
    let mut walk = Walk::start(schema, body);
    trail.restart();
    let mut found = undeclared(body);
    'events: while walk.is_open() {
        match reader.next(walk.hint()) {
            Ok(event) => {
                found = look_on(schema, &walk, found, trail, path, &event);
                walk.step(&event);
            }
            Err(fault) => return Err(fault),
        }
    }
    Ok(found)
}

/// A message breaks at once where its body isn't declared.
fn undeclared(body: Option<StructId>) -> Option<Breach>
    ensures { kept_broken result [] ≡ undeclared body }
{
    match body {
        Some(_) => None,
        None => Some(Breach::UnknownMethod),
    }
}

/// The first breach so far, or else what stands against this event. Behind a breach nothing is looked at.
#[inline(always)]
fn look_on(
    schema: &Schema,
    walk: &Walk<'_>,
    found: Option<Breach>,
    trail: &mut Trail,
    path: &mut Vec<Step>,
    event: &Event<'_>,
) -> Option<Breach>
    requires schema { walk.now.schema ≡ schema.now }
    requires width { trail.old.width ≡ widest schema.now.structs }
    requires room { DEPTH ≤ vec_capacity path.old }
    requires open { 0 < length walk.now.levels }
    requires shallow { depth_after (item_of event.now) (length walk.now.levels) ≤ 256 }
    requires fitting { found ≡ None → AreFitting schema.now walk.now.levels trail.old.levels }
    ensures first { kept_broken result path.new.items
        ≡ first_broken (kept_broken found path.old.items) (against walk.now trail.old.levels (item_of event.now)) }
    ensures passed { result ≡ None → trail.new.levels ≡ inside_after (item_of event.now) trail.old.levels }
    ensures fitting { result ≡ None → AreFitting schema.now (after walk.now (item_of event.now)).levels trail.new.levels }
    ensures before { result ≡ None → found ≡ None }
    ensures width { trail.new.width ≡ trail.old.width }
    ensures room { vec_capacity path.new ≡ vec_capacity path.old }
{
    match found {
        Some(breach) => Some(breach),
        None => look_first(schema, walk, trail, path, event),
    }
}

/// What stands against an event behind no breach, with its path.
#[inline(always)]
fn look_first(
    schema: &Schema,
    walk: &Walk<'_>,
    trail: &mut Trail,
    path: &mut Vec<Step>,
    event: &Event<'_>,
) -> Option<Breach>
    requires schema { walk.now.schema ≡ schema.now }
    requires width { trail.old.width ≡ widest schema.now.structs }
    requires room { DEPTH ≤ vec_capacity path.old }
    requires open { 0 < length walk.now.levels }
    requires shallow { depth_after (item_of event.now) (length walk.now.levels) ≤ 256 }
    requires fitting { AreFitting schema.now walk.now.levels trail.old.levels }
    ensures first { kept_broken result path.new.items ≡ against walk.now trail.old.levels (item_of event.now) }
    ensures passed { result ≡ None → trail.new.levels ≡ inside_after (item_of event.now) trail.old.levels }
    ensures fitting { result ≡ None → AreFitting schema.now (after walk.now (item_of event.now)).levels trail.new.levels }
    ensures width { trail.new.width ≡ trail.old.width }
    ensures room { vec_capacity path.new ≡ vec_capacity path.old }
{
    match look(schema, walk, trail, event) {
        Some(next) => Some(lay(trail, next, path)),
        None => None,
    }
}

/// Lays the path of what was found in the innermost open level.
#[inline(never)]
fn lay(trail: &Trail, found: Found, path: &mut Vec<Step>) -> Breach
    requires open { 0 < length trail.now.levels }
    requires room { DEPTH ≤ vec_capacity path.old }
    ensures path { kept_broken (Some result) path.new.items ≡ placed trail.now.levels (Some found) }
    ensures room { vec_capacity path.new ≡ vec_capacity path.old }
{
    trail.lay_path(path);
    push_last(path, found.last);
    found.breach
}

/// Appends the last step of a path, if there is one more.
fn push_last(path: &mut Vec<Step>, last: Option<Step>)
    requires { length path.old.items < vec_capacity path.old }
    ensures path { path.new.items ≡ path.old.items ++ last_steps last }
    ensures room { vec_capacity path.new ≡ vec_capacity path.old }
{
    if let Some(step) = last {
        path.push_reserved(step);
    }
}
