//! A load that is generated: a network of four providers, and reserves with their commits.

ghost use Rattle.std.specs.Prelude.{◌≡◌, ◌++◌, ◌∷◌, ◌<◌, ◌+◌, ◌*◌, ◌^◌, [], string_bytes, IfOk, OnOk};
ghost use Rattle.nsi_script.specs.Load.{stepped, after, drawn, drawn_request, at_line, asked, between, sized, reserve_line, commit_line, pair_lines, head_lines, text_of, load_of};

use std::alloc::{AllocError, Global};

/// Four providers in a row below an aggregator, each with two points for users, and four requesters
/// of the aggregator.
const HEAD: &str = "agent p0 provider 60
agent p1 provider 60
agent p2 provider 60
agent p3 provider 60
agent a0 aggregator
agent r0 requester a0
agent r1 requester a0
agent r2 requester a0
agent r3 requester a0
stp p0 p0.a 1000
stp p0 p0.b 1000
stp p0 p0.w 4000
stp p0 p0.e 4000
stp p1 p1.a 1000
stp p1 p1.b 1000
stp p1 p1.w 4000
stp p1 p1.e 4000
stp p2 p2.a 1000
stp p2 p2.b 1000
stp p2 p2.w 4000
stp p2 p2.e 4000
stp p3 p3.a 1000
stp p3 p3.b 1000
stp p3 p3.w 4000
stp p3 p3.e 4000
sdp p0.e p1.w
sdp p1.e p2.w
sdp p2.e p3.w
child a0 p0
child a0 p1
child a0 p2
child a0 p3
---
";

/// What is drawn for a reserve. Capacities are in Mbps, times in seconds.
#[derive(Clone, Copy, Debug, PartialEq, Eq)]
pub struct DrawnRequest {
    /// The provider that has the source, and the one that has the destination.
    pub source: u64,
    pub dest: u64,
    pub capacity: u64,
    pub start: u64,
    pub end: u64,
}

/// A linear congruence modulo 2^64.
fn stepped(state: u64) -> u64
    ensures { result ≡ stepped state }
{
    state
        .wrapping_mul(6_364_136_223_846_793_005)
        .wrapping_add(1_442_695_040_888_963_407)
}

/// Draws a number below a bound.
fn draw(state: &mut u64, below: u64) -> u64
    requires { 0 < below }
    ensures state { state.new ≡ stepped state.old }
    ensures drawn { result ≡ drawn below state.new }
    ensures within { result < below }
{
    *state = stepped(*state);
    (*state / 8_589_934_592) % below
}

fn draw_request(state: &mut u64) -> DrawnRequest
    ensures state { state.new ≡ after 5 state.old }
    ensures request { result ≡ drawn_request state.old }
{
    let source = draw(state, 4);
    let dest = draw(state, 4);
    let capacity = draw(state, 500) + 1;
    let start = 1_000_000 + 10 * draw(state, 100);
    let end = start + 10 * (draw(state, 20) + 1);
    DrawnRequest {
        source,
        dest,
        capacity,
        start,
        end,
    }
}

fn push_line(text: &mut Vec<u8>, line: &str) -> Result<(), AllocError>
    ensures { OnOk result (text.new.items ≡ text.old.items ++ text_of (line.now ∷ [])) }
{
    text.extend_from_slice(line.as_bytes())?;
    text.push(b'\n')?;
    Ok(())
}

fn at_line(alloc: Global, second: u64) -> Result<String, AllocError>
    ensures { IfOk result (λ s. string_bytes s ≡ at_line second) }
{
    format!(in alloc; "at {second}")
}

fn asked(alloc: Global, i: u64) -> Result<String, AllocError>
    ensures { IfOk result (λ s. string_bytes s ≡ asked i) }
{
    let requester = i % 4;
    format!(in alloc; "ask r{requester} reserve c{i}")
}

fn between(alloc: Global, request: &DrawnRequest) -> Result<String, AllocError>
    ensures { IfOk result (λ s. string_bytes s ≡ between request.now) }
{
    let DrawnRequest { source, dest, .. } = *request;
    format!(in alloc; " p{source}.a p{dest}.b ")
}

fn sized(alloc: Global, request: &DrawnRequest) -> Result<String, AllocError>
    ensures { IfOk result (λ s. string_bytes s ≡ sized request.now) }
{
    let DrawnRequest {
        capacity,
        start,
        end,
        ..
    } = *request;
    format!(in alloc; "{capacity} {start} {end}")
}

fn reserve_line(alloc: Global, i: u64, request: &DrawnRequest) -> Result<String, AllocError>
    ensures { IfOk result (λ s. string_bytes s ≡ reserve_line i request.now) }
{
    let asked = asked(alloc, i)?;
    let between = between(alloc, request)?;
    let sized = sized(alloc, request)?;
    format!(in alloc; "{asked}{between}{sized}")
}

fn commit_line(alloc: Global, i: u64) -> Result<String, AllocError>
    ensures { IfOk result (λ s. string_bytes s ≡ commit_line i) }
{
    let requester = i % 4;
    format!(in alloc; "ask r{requester} commit c{i}")
}

/// A reserve, and its commit a second later.
fn push_pair(
    alloc: Global,
    text: &mut Vec<u8>,
    i: u64,
    request: &DrawnRequest,
) -> Result<(), AllocError>
    requires { i < 2 ^ 32 }
    ensures { OnOk result
        (text.new.items ≡ text.old.items ++ text_of (pair_lines i request.now)) }
{
    let first = at_line(alloc, 2 * i)?;
    let reserve = reserve_line(alloc, i, request)?;
    let second = at_line(alloc, 2 * i + 1)?;
    let commit = commit_line(alloc, i)?;
    push_line(text, &first)?;
    push_line(text, &reserve)?;
    push_line(text, &second)?;
    push_line(text, &commit)
}

/// The topology and the script that a number gives, with so many reserves and commits.
pub fn make_load(alloc: Global, number: u64, size: u32) -> Result<Vec<u8>, AllocError>
    ensures { IfOk result (λ text. text.items ≡ load_of number size) }
{
    let mut text = Vec::from_slice(alloc, HEAD.as_bytes())?;
    let mut state = number;
    for i in 0..u64::from(size) {
        let request = draw_request(&mut state);
        push_pair(alloc, &mut text, i, &request)?;
    }
    Ok(text)
}
