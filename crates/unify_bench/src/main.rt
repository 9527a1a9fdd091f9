// Times unify and same on terms that share structure: two chains of 600 nested f(X, X), each built on its own, which as trees
// would have 2^600 leaves. Standard output has the answers, and standard error the time of a round.
#![tactic(auto)]

use replaying::{Bench, Reply, Request};
use std::io;
use std::time::Instant;

const LEVELS: u64 = 600;

const ROUNDS: u64 = 1000;

// Xd becomes f(Xd, Xd).
fn wrap(bench: &mut Bench, d: u64) {
    let start = Request::Start { name: 1, arity: 2 };
    let put = Request::Put { s: d };
    for request in [start, put, put, Request::Done { d }] {
        let _reply = bench.perform(request);
    }
}

// Xd becomes a variable, nested in so many levels of f(X, X).
fn nest(bench: &mut Bench, d: u64, levels: u64) {
    let _reply = bench.perform(Request::Var { d });
    for _ in 0..levels {
        wrap(bench, d);
    }
}

// Carries the request out in many rounds, each between open and last, and prints its last answer.
fn report(rt: &HostRuntime, bench: &mut Bench, name: &str, request: Request) -> io::Result<()> {
    let start = Instant::now(rt)?;
    let mut reply = Reply::NoSlip;
    for _ in 0..ROUNDS {
        let _opened = bench.perform(Request::Open);
        reply = bench.perform(request);
        let _back = bench.perform(Request::Last);
    }
    let time = start.elapsed(rt)?.as_micros();
    println!(rt; "{name}: {reply}")?;
    eprintln!(rt; "{name}: {ROUNDS} rounds in {time} microseconds")
}

fn run(rt: &HostRuntime, bench: &mut Bench) -> io::Result<()> {
    nest(bench, 0, LEVELS);
    nest(bench, 1, LEVELS);
    let usage = bench.perform(Request::Usage);
    println!(rt; "{usage}")?;
    report(
        rt,
        bench,
        "same, different variables",
        Request::Same { s: 0, t: 1 },
    )?;
    report(rt, bench, "unify", Request::Unify { s: 0, t: 1 })?;
    let _unified = bench.perform(Request::Unify { s: 0, t: 1 });
    report(rt, bench, "same, unified", Request::Same { s: 0, t: 1 })?;
    // X2 is a new variable, which is bound to X0. X1, which was unified with X0, gets one level more: the occurs check finds it.
    nest(bench, 2, 0);
    let _bound = bench.perform(Request::Unify { s: 2, t: 0 });
    wrap(bench, 1);
    report(
        rt,
        bench,
        "unify, one level more",
        Request::Unify { s: 0, t: 1 },
    )
}

fn main(rt: HostRuntime) -> io::Result<()> {
    let mut bench = Bench::new();
    let ran = run(&rt, &mut bench);
    let _voided = bench.finish();
    ran
}
