//! Makes a layered net of files and classes, and runs one greatest flow on it.
//!
//! `flow_bench FILES CLASSES USERS SEED`: a source, a sink, a node for each file, and for each class a charge node and
//! a reward node; each class has so many users. One file in sixteen is pinned inside and one outside.
#![tactic(auto)]

ghost use Rattle.std.specs.Prelude.{◌≡◌, ◌≢◌, ℕ, ◌+◌, ◌*◌, ◌^◌, ◌<◌, ◌≤◌, length, IfOk};

use anyhow::{Context, Result, bail};
use flow_net::{FlowCut, Net, Steps, max_flow};
use seed_model::NoMemory;
use std::alloc::Global;
use std::env;
use std::marker::Brand;
use std::sync::ledger::{Blank, Ledger};

/// What a net is made from.
#[derive(Clone, Copy)]
struct Shape {
    files: u32,
    classes: u32,
    users: u32,
    seed: u64,
}

/// Adds a pipe, unless the net may not have it.
fn join(net: &mut Net, from: u32, to: u32, room: u128) -> std::result::Result<(), NoMemory>
    ensures { net.new.nodes ≡ net.old.nodes }
{
    let nodes = net.nodes();
    let lawful = from < nodes && to < nodes && from != to;
    if lawful && room < 1 << 104 && net.pipes().len() < 1 << 24 {
        net.add(from, to, room)?;
    }
    Ok(())
}

/// The next of a fixed sequence of numbers.
fn drawn(state: u64) -> u64 {
    state
        .wrapping_mul(6364136223846793005)
        .wrapping_add(1442695040888963407)
}

/// The node of a file: the source where it is pinned inside, the sink where it is pinned outside.
fn seat(file: u32) -> u32
    requires { file < 2 ^ 20 }
{
    match file % 16 {
        3 => 0,
        7 => 1,
        _ => file + 2,
    }
}

/// The net of a shape, with rooms of up to 37 binary digits.
fn layered(alloc: Global, shape: Shape) -> std::result::Result<Net, NoMemory>
    requires some { 0 < shape.files }
    requires files { shape.files ≤ 2 ^ 20 }
    requires classes { shape.classes ≤ 2 ^ 20 }
    ensures { IfOk result (λ net. net.nodes ≡ shape.files + 2 * shape.classes + 2) }
{
    let mut net = Net::new(alloc, shape.files + 2 * shape.classes + 2)?;
    let mut state = shape.seed;
    for class in 0..shape.classes {
        state = drawn(state);
        let size = (state >> 28) as u128;
        let charge = shape.files + 2 * class + 2;
        let reward = charge + 1;
        join(&mut net, 0, reward, size)?;
        join(&mut net, charge, 1, size)?;
        for _ in 0..shape.users {
            state = drawn(state);
            let file = ((state >> 33) % shape.files as u64) as u32;
            join(&mut net, reward, seat(file), size + 1)?;
            join(&mut net, seat(file), charge, size + 1)?;
        }
    }
    Ok(net)
}

/// What leaves the source, without what comes back.
fn value_of(net: &Net, cut: &FlowCut) -> u128
    requires { length cut.now.flow.amounts ≡ length net.now.pipes }
{
    let mut out: u128 = 0;
    let mut back: u128 = 0;
    for (index, pipe) in net.pipes().iter().enumerate() {
        let amount = cut.flow.amount(index as u32);
        if pipe.from == 0 {
            out = out.saturating_add(amount);
        }
        if pipe.to == 0 {
            back = back.saturating_add(amount);
        }
    }
    out.saturating_sub(back)
}

fn flow_of<L: Ledger>(
    alloc: Global,
    net: &Net,
    blank: Blank,
) -> std::result::Result<FlowCut, NoMemory>
    requires name { blank.name ≡ L.name }
    requires parts { blank.parts ≡ L.parts }
    requires some { 0 < blank.parts }
    requires nodes { 2 ≤ net.now.nodes }
    ensures { IfOk result (λ cut. length cut.flow.amounts ≡ length net.now.pipes) }
{
    let mut steps = Steps::<L>::new(blank);
    max_flow(alloc, net, 0, 1, &mut steps)
}

fn main(rt: HostRuntime) -> Result<()> {
    let mut words = env::args(&rt)?;
    let _program = words.next();
    let files: u32 = words.next().context("no number of files")?.parse()?;
    let classes: u32 = words.next().context("no number of classes")?.parse()?;
    let users: u32 = words.next().context("no number of users")?.parse()?;
    let seed: u64 = words.next().context("no seed")?.parse()?;
    if files == 0 || files > 1 << 20 || classes > 1 << 20 {
        bail!("from 1 to 1048576 files, and at most as many classes");
    }
    let shape = Shape {
        files,
        classes,
        users,
        seed,
    };
    let net = layered(rt.alloc(), shape).ok().context("want of memory")?;
    let cut = flow_of::<Brand>(rt.alloc(), &net, Blank::new(1))
        .ok()
        .context("want of memory")?;
    let value = value_of(&net, &cut);
    println!(rt;
        "nodes {} pipes {} value {value}",
        net.nodes(),
        net.pipes().len()
    )?;
    eprintln!(rt; "pushes {}", cut.flow.pushes())?;
    Ok(())
}
