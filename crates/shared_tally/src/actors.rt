//! Any number of actors that take turns.
ghost use Rattle.std.specs.Prelude.{◌≡◌, ◌≤◌, ◌^◌, ◌++◌, All, IfOk, OnOk, vec_len};
ghost use Rattle.std.specs.List.{AllZip};
ghost use Rattle.shared_tally.specs.Tallied.{opened};
ghost use Rattle.turn_gate.specs.Passes.{IsPassOf, IsSamePass};
ghost use Rattle.shared_tally.specs.Jobs.{split_times, jobs_of, DoesJob, AreOf, JoinsAll, IsTallyOf};

use crate::tally::Tally;
use std::alloc::{AllocError, Global};
use std::sync::Wait;
use std::thread;
use std::thread::Threads;
use turn_gate::{Gate, Pass};

/// What one actor adds, and the pass that it takes its turns with.
#[derive(Drop)]
struct Job {
    pass: Pass<Tally>,
    numbers: Vec<u64>,
}

/// Adds all numbers, each in a turn of its own.
fn add_all<R: Wait>(
    rt: &R,
    gate: &Gate<Tally>,
    mut pass: Pass<Tally>,
    numbers: &[u64],
) -> Result<Pass<Tally>, AllocError>
    requires { IsPassOf gate.now pass }
    ensures same { IfOk result (λ p. IsSamePass pass p) }
    ensures own { IfOk result (λ p. p.own ≡ pass.own ++ numbers.now) }
{
    for number in numbers {
        gate.turn(rt, &mut pass, *number)?;
    }
    Ok(pass)
}

/// Does one job.
fn run<R: Wait>(rt: &R, gate: &Gate<Tally>, job: Job) -> Result<Pass<Tally>, AllocError>
    requires { IsPassOf gate.now job.pass }
    ensures { DoesJob job result }
{
    let Job { pass, numbers } = job;
    add_all(rt, gate, pass, numbers.as_slice())
}

/// A job for each list, with a pass split off the first one.
fn jobs_for(
    alloc: Global,
    gate: &Gate<Tally>,
    pass: &mut Pass<Tally>,
    lists: Vec<Vec<u64>>,
) -> Result<Vec<Job>, AllocError>
    requires gate { IsPassOf gate.now pass.old }
    requires first { (pass.old.name ≡ 0) × (pass.old.splits ≡ 0) }
    requires few { vec_len lists ≤ 2 ^ 32 }
    ensures pass { OnOk result (pass.new ≡ split_times pass.old (vec_len lists)) }
    ensures jobs { IfOk result (λ v. v.items ≡ jobs_of pass.old 0 lists.items) }
{
    let mut jobs = Vec::new(alloc);
    for numbers in lists {
        let pass = gate.split(pass)?;
        jobs.push(Job { pass, numbers })?;
    }
    Ok(jobs)
}

/// Does each job in a thread of its own.
fn run_all<R: Threads + Wait + Sync>(
    rt: &R,
    gate: &Gate<Tally>,
    jobs: Vec<Job>,
) -> Result<Vec<Result<Pass<Tally>, AllocError>>, AllocError>
    requires { All (λ j. IsPassOf gate.now j.pass) jobs.items }
    ensures { IfOk result (λ v. AllZip DoesJob jobs.items v.items) }
{
    thread::map_vec(
        rt,
        jobs,
        &|job: Job| -> Result<Pass<Tally>, AllocError>
            requires { IsPassOf gate.now job.pass }
            ensures { DoesJob job result }
        { run(rt, gate, job) },
    )
}

/// Joins all passes into the first one.
fn join_all(
    gate: &Gate<Tally>,
    pass: &mut Pass<Tally>,
    done: Vec<Result<Pass<Tally>, AllocError>>,
) -> Result<(), AllocError>
    requires gate { IsPassOf gate.now pass.old }
    requires each { AreOf gate.now done.items }
    ensures gate { OnOk result (IsPassOf gate.now pass.new) }
    ensures joins { OnOk result (JoinsAll pass.old done.items pass.new) }
{
    for one in done {
        gate.join(pass, one?);
    }
    Ok(())
}

/// Has an actor for each list add its numbers to one tally, each actor in a thread of its own and each number in a turn of
/// `rounds` rounds. The gate's tickets begin at `first`. The tally then has the numbers of the lists, each list's in its order,
/// each once, and no others.
pub fn tally_of<R: Threads + Wait + Sync>(
    rt: &R,
    alloc: Global,
    rounds: u64,
    first: u64,
    lists: Vec<Vec<u64>>,
) -> Result<Tally, AllocError>
    requires { vec_len lists ≤ 2 ^ 32 }
    ensures { IfOk result (λ tally. IsTallyOf tally.added lists.items) }
{
    let (gate, mut pass) = Gate::new(alloc, Tally::new(alloc, rounds), first)?;
    let jobs = jobs_for(alloc, &gate, &mut pass, lists)?;
    let done = run_all(rt, &gate, jobs)?;
    join_all(&gate, &mut pass, done)?;
    Ok(gate.close(rt, pass))
}
