// Worked nets, small nets against all their cuts, and a net that takes more pushes than the first ones.
ghost use Rattle.std.specs.Prelude.{◌≡◌, ◌≢◌, ℕ, ◌+◌, ◌*◌, ◌^◌, ◌<◌, ◌≤◌, length, IfOk};

use flow_net::{FlowCut, Net, Steps, max_flow};
use seed_model::NoMemory;
use std::alloc::Global;
use std::marker::Brand;
use std::process::Abort;
use std::sync::ledger::{Blank, Ledger};
use std::test::Fail;

// A net from its pipes. Pipes that no net may have are left out.
fn net_of(alloc: Global, nodes: u32, pipes: &[(u32, u32, u128)]) -> Result<Net, NoMemory>
    requires nodes { nodes ≤ 2 ^ 22 }
    requires pipes { length pipes.now ≤ 2 ^ 24 }
    ensures { IfOk result (λ net. net.nodes ≡ nodes) }
{
    let mut net = Net::new(alloc, nodes)?;
    for (from, to, room) in pipes {
        if *from < nodes && *to < nodes && *from != *to && *room < 1 << 104 {
            net.add(*from, *to, *room)?;
        }
    }
    Ok(net)
}

fn flow_of<L: Ledger>(
    alloc: Global,
    net: &Net,
    source: u32,
    sink: u32,
    blank: Blank,
) -> Result<FlowCut, NoMemory>
    requires name { blank.name ≡ L.name }
    requires parts { blank.parts ≡ L.parts }
    requires some { 0 < blank.parts }
    requires source { source < net.now.nodes }
    requires sink { sink < net.now.nodes }
    requires apart { source ≢ sink }
    ensures { IfOk result (λ cut. length cut.flow.amounts ≡ length net.now.pipes) }
{
    let mut steps = Steps::<L>::new(blank);
    max_flow(alloc, net, source, sink, &mut steps)
}

// Whether a set of nodes, given by bits, has a node.
fn has(set: u32, node: u32) -> bool {
    node < 32 && (set >> node) & 1 == 1
}

// What the cut of a set of nodes costs.
fn cost_of(net: &Net, set: u32) -> u128 {
    let mut cost: u128 = 0;
    for pipe in net.pipes() {
        if has(set, pipe.from) && !has(set, pipe.to) {
            cost = cost.saturating_add(pipe.room);
        }
    }
    cost
}

// The least cost over all source sides, and the nodes in each and in some of the sides that cost it.
fn all_cuts(net: &Net, source: u32, sink: u32) -> (u128, u32, u32) {
    let mut least = u128::MAX;
    let mut each = u32::MAX;
    let mut some = 0;
    for set in 0..1u32 << 6 {
        if has(set, source) && !has(set, sink) {
            let cost = cost_of(net, set);
            if cost < least {
                least = cost;
                each = u32::MAX;
                some = 0;
            }
            if cost == least {
                each &= set;
                some |= set;
            }
        }
    }
    (least, each, some)
}

// What leaves the source, without what comes back.
fn value_of(net: &Net, cut: &FlowCut, source: u32) -> u128
    requires { length cut.now.flow.amounts ≡ length net.now.pipes }
{
    let mut out: u128 = 0;
    let mut back: u128 = 0;
    for (index, pipe) in net.pipes().iter().enumerate() {
        let amount = cut.flow.amount(index as u32);
        if pipe.from == source {
            out = out.saturating_add(amount);
        }
        if pipe.to == source {
            back = back.saturating_add(amount);
        }
    }
    out.saturating_sub(back)
}

// The flow's value is the least cost, and the sides are the nodes in each and in some least side.
fn agrees(rt: &impl Abort, net: &Net, cut: &FlowCut, source: u32, sink: u32)
    requires { length cut.now.flow.amounts ≡ length net.now.pipes }
{
    let (least, each, some) = all_cuts(net, source, sink);
    assert_eq!(rt; value_of(net, cut, source), least);
    for node in 0..6u32 {
        if let Some(inside) = cut.least.get(node as usize) {
            assert_eq!(rt; *inside, has(each, node));
        }
        if let Some(inside) = cut.greatest.get(node as usize) {
            assert_eq!(rt; *inside, has(some, node));
        }
    }
}

// Whether the flow has these amounts in the first pipes.
fn has_amounts(cut: &FlowCut, amounts: &[u128]) -> bool
    requires within { length amounts.now ≤ length cut.now.flow.amounts }
    requires few { length amounts.now < 2 ^ 32 }
{
    let mut as_told = true;
    for (pipe, amount) in amounts.iter().enumerate() {
        as_told &= cut.flow.amount(pipe as u32) == *amount;
    }
    as_told
}

// Whether these are the source sides.
fn has_sides(cut: &FlowCut, least: &[bool], greatest: &[bool]) -> bool {
    cut.least.as_slice() == least && cut.greatest.as_slice() == greatest
}

#[test]
fn worked_net(rt: HostRuntime) -> Result<(), Fail> {
    let alloc = rt.alloc();
    let net = net_of(
        alloc,
        4,
        &[(0, 1, 3), (0, 2, 2), (1, 3, 2), (2, 3, 4), (1, 2, 1)],
    )?;
    let cut = flow_of::<Brand>(alloc, &net, 0, 3, Blank::new(1))?;
    assert!(rt; net.pipes().len() == 5);
    assert!(rt; has_amounts(&cut, &[3, 2, 2, 3, 1]));
    assert!(rt;
        has_sides(
            &cut,
            &[true, false, false, false],
            &[true, true, false, false]
        )
    );
    agrees(&rt, &net, &cut, 0, 3);
    Ok(())
}

#[test]
fn no_pipes(rt: HostRuntime) -> Result<(), Fail> {
    let alloc = rt.alloc();
    let net = net_of(alloc, 2, &[])?;
    let cut = flow_of::<Brand>(alloc, &net, 0, 1, Blank::new(1))?;
    assert!(rt; cut.flow.pushes() == 0);
    assert!(rt; has_sides(&cut, &[true, false], &[true, false]));
    Ok(())
}

#[test]
fn odd_pipes(rt: HostRuntime) -> Result<(), Fail> {
    let alloc = rt.alloc();
    let net = net_of(
        alloc,
        5,
        &[
            (0, 1, 2),
            (0, 1, 3),
            (1, 0, 4),
            (1, 2, 0),
            (1, 4, 1 << 90),
            (4, 1, 7),
            (3, 4, 5),
            (4, 3, 5),
        ],
    )?;
    let cut = flow_of::<Brand>(alloc, &net, 0, 4, Blank::new(1))?;
    agrees(&rt, &net, &cut, 0, 4);
    Ok(())
}

// A net of pipes that a fixed sequence of numbers draws.
fn drawn_net(alloc: Global, nodes: u32, pipes: u32, state: &mut u64) -> Result<Net, NoMemory>
    requires some { 1 ≤ nodes }
    requires nodes { nodes ≤ 2 ^ 22 }
    requires pipes { pipes ≤ 2 ^ 24 }
    ensures { IfOk result (λ net. net.nodes ≡ nodes) }
{
    let mut net = Net::new(alloc, nodes)?;
    for _count in 0..pipes {
        *state = state
            .wrapping_mul(6364136223846793005)
            .wrapping_add(1442695040888963407);
        let from = ((*state >> 33) % nodes as u64) as u32;
        let to = ((*state >> 43) % nodes as u64) as u32;
        let room = ((*state >> 53) % 8) as u128;
        if from != to {
            net.add(from, to, room)?;
        }
    }
    Ok(net)
}

#[test]
fn small_nets(rt: HostRuntime) -> Result<(), Fail> {
    let alloc = rt.alloc();
    let mut state: u64 = 20260101;
    for nodes in 2..7u32 {
        for round in 0..400u32 {
            let net = drawn_net(alloc, nodes, round % 14, &mut state)?;
            let cut = flow_of::<Brand>(alloc, &net, 0, nodes - 1, Blank::new(1))?;
            agrees(&rt, &net, &cut, 0, nodes - 1);
        }
    }
    Ok(())
}

// Adds a pipe, unless the net may not have it.
fn join(net: &mut Net, from: u32, to: u32, room: u128) -> Result<(), NoMemory>
    ensures { net.new.nodes ≡ net.old.nodes }
{
    let nodes = net.nodes();
    let lawful = from < nodes && to < nodes && from != to;
    if lawful && room < 1 << 104 && net.pipes().len() < 1 << 24 {
        net.add(from, to, room)?;
    }
    Ok(())
}

// The nodes of a chain away from the source.
fn way_in(place: u32) -> u32
    requires { place ≤ 10 }
{
    if place == 0 { 0 } else { 21 + place }
}

// The nodes of a chain towards the sink.
fn way_out(place: u32) -> u32
    requires { place ≤ 10 }
{
    if place == 0 { 1 } else { 31 + place }
}

// Joins the nodes from 2 on to those from 12 on, ten to ten, by pipes of room 1, and two chains of ten pipes.
fn middle(net: &mut Net) -> Result<(), NoMemory>
    ensures { net.new.nodes ≡ net.old.nodes }
{
    for left in 2..12u32 {
        for right in 12..22u32 {
            join(net, left, right, 1)?;
        }
    }
    for place in 0..10u32 {
        join(net, way_in(place), way_in(place + 1), 1000)?;
        join(net, way_out(place + 1), way_out(place), 1000)?;
    }
    Ok(())
}

// A net whose shortest paths cross the hundred pipes in its middle, in turn along them and back: a crossing takes a
// push for each of them and opens them for the next one, which is entered and left two nodes further along the chains.
// Six crossings carry 100 each, over 240 pipes.
fn crossing_net(alloc: Global) -> Result<Net, NoMemory>
    ensures { IfOk result (λ net. net.nodes ≡ 42) }
{
    let mut net = Net::new(alloc, 42)?;
    middle(&mut net)?;
    for crossing in 0..6u32 {
        let enter = if crossing % 2 == 0 { 2 } else { 12 };
        let leave = 14 - enter;
        for node in 0..10u32 {
            join(&mut net, way_in(2 * crossing), enter + node, 10)?;
            join(&mut net, leave + node, way_out(2 * crossing), 10)?;
        }
    }
    Ok(net)
}

// Whether the sides are the source with the chain behind it, and all nodes but the sink and the chain before it.
fn has_chains_as_sides(cut: &FlowCut) -> bool {
    let mut as_told = cut.greatest.len() == 42;
    for (node, inside) in cut.least.iter().enumerate() {
        as_told &= *inside == (node == 0 || (node >= 22 && node < 32));
    }
    for (node, inside) in cut.greatest.iter().enumerate() {
        as_told &= *inside == (node != 1 && node < 32);
    }
    as_told
}

// The first pushes are at most two for each pipe, so the turns by powers of two made some of these.
#[test]
fn more_than_the_first_pushes(rt: HostRuntime) -> Result<(), Fail> {
    let alloc = rt.alloc();
    let net = crossing_net(alloc)?;
    let cut = flow_of::<Brand>(alloc, &net, 0, 1, Blank::new(1))?;
    assert!(rt; net.pipes().len() == 240 && cut.flow.pushes() > 480);
    assert!(rt; value_of(&net, &cut, 0) == 600);
    assert!(rt; has_chains_as_sides(&cut));
    Ok(())
}
