//! The command `route` over a fan in memory: what each port is sent, and how the session ends.
ghost use Rattle.std.specs.Prelude.{◌<◌};

use crate::outside::{Outside, run_line, with_input};
use gate_base::{OutOfMemory, Text};
use gate_memory::{FanStep, FanSteps, MemFan};
use std::alloc::Global;
use std::test::*;

/// A router of Binary clients to two services that speak Compact, and what it writes of the calls below; the second tells refusals.
const LINES: [(&[u8], &[u8]); 2] = [
    (
        b"route binary compact 127.0.0.1:1 Calc=127.0.0.1:2,Log=127.0.0.1:3",
        b"session 0: clean\n",
    ),
    (
        b"route binary compact 127.0.0.1:1 Calc=127.0.0.1:2,Log=127.0.0.1:3 --tell refused",
        b"session 0: call 3 \"X:c\" 3: at 4: V1 no route\nsession 0: clean\n",
    ),
];

/// The calls `Log:a` 1, `Calc:b` 2 and `X:c` 3, framed.
const CALLS: &[u8] =
    b"\0\0\0\x12\x80\x01\0\x01\0\0\0\x05Log:a\0\0\0\x01\0\0\0\0\x13\x80\x01\0\x01\0\0\0\x06Calc:b\0\0\0\x02\0\0\0\0\x10\x80\x01\0\x01\0\0\0\x03X:c\0\0\0\x03\0";

/// The answers to the first two, and the refusal of the third, framed.
const ANSWERS: &[u8] =
    b"\0\0\0\x0e\x80\x01\0\x02\0\0\0\x01a\0\0\0\x01\0\0\0\0\x0e\x80\x01\0\x02\0\0\0\x01b\0\0\0\x02\0\0\0\0\x27\x80\x01\0\x03\0\0\0\x01c\0\0\0\x03\x0b\0\x01\0\0\0\x0bV1 no route\x08\0\x02\0\0\0\x01\0";

const TO_CALC: &[u8] = b"\0\0\0\x06\x82\x21\x02\x01b\0";

const TO_LOG: &[u8] = b"\0\0\0\x06\x82\x21\x01\x01a\0";

const OF_CALC: &[u8] = b"\0\0\0\x06\x82\x41\x02\x01b\0";

const OF_LOG: &[u8] = b"\0\0\0\x06\x82\x41\x01\x01a\0";

/// Words that name no router: a target twice, a name with a colon, no name, an address of three octets, and an option of one upstream.
const NO_ROUTERS: [&[u8]; 5] = [
    b"route binary compact 127.0.0.1:1 A=127.0.0.1:2,A=127.0.0.1:3",
    b"route binary compact 127.0.0.1:1 A:B=127.0.0.1:2",
    b"route binary compact 127.0.0.1:1 =127.0.0.1:2",
    b"route binary compact 127.0.0.1:1 A=127.0.0:2",
    b"route binary compact 127.0.0.1:1 A=127.0.0.1:2 --service A",
];

fn arrival(alloc: Global, port: usize, bytes: &[u8]) -> Result<FanStep, OutOfMemory> {
    Ok(FanStep::Arrive {
        session: 0,
        port,
        bytes: Text::new(alloc, bytes)?,
    })
}

/// A client with three calls, whose second target answers last.
fn steps(alloc: Global) -> Result<FanSteps, OutOfMemory> {
    let mut steps = FanSteps::new(alloc);
    steps.push(FanStep::Connect)?;
    steps.push(arrival(alloc, 0, CALLS)?)?;
    steps.push(arrival(alloc, 1, OF_CALC)?)?;
    steps.push(arrival(alloc, 2, OF_LOG)?)?;
    steps.push(FanStep::Finish {
        session: 0,
        port: 0,
    })?;
    Ok(steps)
}

/// An outside whose fan does these steps, and moves so many bytes at most in a call.
fn with_steps(alloc: Global, chunk: usize) -> Result<Outside, OutOfMemory>
    requires { 0 < chunk }
{
    let fan = MemFan::new(alloc, steps(alloc)?, chunk)?;
    let mut outside = with_input(alloc, b"")?;
    outside.fan = fan;
    Ok(outside)
}

/// Whether each port was sent what is due to it, and this was written.
fn was_sent_all(outside: &Outside, output: &[u8]) -> bool {
    outside.output.bytes() == output
        && outside.fan.sent_to(0, 0) == ANSWERS
        && outside.fan.sent_to(0, 1) == TO_CALC
        && outside.fan.sent_to(0, 2) == TO_LOG
}

fn sends_all(
    alloc: Global,
    line: &[u8],
    output: &[u8],
    outside: &mut Outside,
) -> Result<bool, OutOfMemory> {
    let code = run_line(alloc, line, outside)?;
    Ok(code == 0 && was_sent_all(outside, output))
}

fn is_routed(alloc: Global, line: &[u8], output: &[u8], chunk: usize) -> Result<bool, OutOfMemory>
    requires { 0 < chunk }
{
    let mut outside = with_steps(alloc, chunk)?;
    sends_all(alloc, line, output, &mut outside)
}

#[test]
fn calls_go_to_the_target_of_their_service(rt: HostRuntime) -> Result<(), Fail> {
    for (line, output) in LINES {
        for chunk in [1, 4096] {
            let is_routed = is_routed(rt.alloc(), line, output, chunk)
                .ok()
                .ok_or("memory")?;
            assert!(rt; is_routed, "{line:?} {chunk}");
        }
    }
    Ok(())
}

/// Whether a line is no command.
pub fn is_usage(alloc: Global, line: &[u8]) -> Result<bool, OutOfMemory> {
    let mut outside = with_input(alloc, b"")?;
    Ok(run_line(alloc, line, &mut outside)? == 2)
}

#[test]
fn other_targets_are_no_command(rt: HostRuntime) -> Result<(), Fail> {
    for line in NO_ROUTERS {
        let is_usage = is_usage(rt.alloc(), line).ok().ok_or("memory")?;
        assert!(rt; is_usage, "{line:?}");
    }
    Ok(())
}
