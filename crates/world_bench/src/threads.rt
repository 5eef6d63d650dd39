// Threads side by side, each with a pass of its own.
ghost use Rattle.std.specs.Prelude.{◌≡◌, ◌+◌, ◌<◌, ◌≤◌, length, IfOk, OnOk, true};
ghost use Rattle.std.specs.Thread.{IsSync};
ghost use Rattle.nexus.specs.Roots.{IsRootOf};
ghost use Rattle.random_acts.specs.Asked.{IsOfNexus};
ghost use Rattle.nexus.specs.Worlds.{IsFreePass};

use crate::work::{Kind, Work, next_act};
use cm_base::{Config, OutOfMemory};
use cm_history::{Act, ActRefused, Answer, within_limits};
use nexus::{Pass, Root, World};
use random_acts::Numbers;
use recorder::NoRecorder;
use std::alloc::Global;
use std::sync::Wait;
use std::thread::{Threads, join};

/// What one thread has done: its pass, and the answers to compare, in the order of asking.
#[derive(Drop)]
pub struct Asked {
    pub pass: Pass<NoRecorder>,
    pub answers: Vec<Answer>,
}

/// What all threads have done.
#[derive(Drop)]
pub struct Done {
    pub root: Root<NoRecorder>,
    /// The answers to compare of each thread, the last thread's first.
    pub answers: Vec<Vec<Answer>>,
}

/// Has an act done, if it is within its limits, and tells the answer, if the record has room for it.
fn ask<R: Wait>(
    rt: &R,
    config: &Config,
    world: &World<NoRecorder>,
    pass: &mut Pass<NoRecorder>,
    number: u32,
    unit: u16,
    act: Act,
) -> Result<Option<Answer>, OutOfMemory>
    requires config { world.now.config ≡ config.now }
    requires pass { IsFreePass world.now number pass.old }
    requires configured { unit < length config.now.units }
    requires act { IsOfNexus act }
    ensures pass { IsFreePass world.now number pass.new }
{
    if !within_limits(config, unit, &act) {
        return Ok(None);
    }
    match world.act(rt, pass, unit, 0, act) {
        Ok(answer) => Ok(Some(answer)),
        Err(ActRefused::Full) => Ok(None),
        Err(ActRefused::OutOfMemory) => Err(OutOfMemory),
    }
}

/// Asks all acts of one thread.
fn ask_all<R: Wait>(
    rt: &R,
    alloc: Global,
    config: &Config,
    world: &World<NoRecorder>,
    pass: Pass<NoRecorder>,
    work: Work,
    number: u32,
) -> Result<Asked, OutOfMemory>
    requires config { world.now.config ≡ config.now }
    requires pass { IsFreePass world.now number pass }
    requires units { (1 ≤ work.units) × (work.units ≤ length config.now.units) }
    ensures { IfOk result (λ asked. IsFreePass world.now number asked.pass) }
{
    let mut pass = pass;
    let mut answers = Vec::new(alloc);
    let mut numbers = Numbers::new(u64::from(number));
    for index in 0..work.acts {
        let unit = work.unit(number, &mut numbers);
        let act = next_act(alloc, config, unit, work.kind, index, &mut numbers)?;
        let answer = ask(rt, config, world, &mut pass, number, unit, act)?;
        if let (Kind::Mixed, Some(answer)) = (work.kind, answer) {
            answers.push(answer)?;
        }
    }
    Ok(Asked { pass, answers })
}

/// So many threads ask side by side, by passes whose numbers begin at one.
pub fn ask_side_by_side<R: Wait + Threads + Sync>(
    rt: &R,
    alloc: Global,
    config: &Config,
    world: &World<NoRecorder>,
    root: Root<NoRecorder>,
    work: Work,
    number: u32,
    threads: u16,
) -> Result<Done, OutOfMemory>
    requires config { world.now.config ≡ config.now }
    requires root { IsRootOf world.now root }
    requires made { root.made ≡ number }
    requires few { number + threads ≤ 65_535 }
    requires units { (1 ≤ work.units) × (work.units ≤ length config.now.units) }
    ensures root { IfOk result (λ done. IsRootOf world.now done.root) }
    ensures out { IfOk result (λ done. length done.root.out ≡ length root.out) }
{
    if threads == 0 {
        return Ok(Done {
            root,
            answers: Vec::new(alloc),
        });
    }
    let mut root = root;
    let pass = world.pass(alloc, &mut root)?;
    let others = threads - 1;
    let (asked, done) = join(
        rt,
        || -> Result<Asked, OutOfMemory>
            requires config { world.now.config ≡ config.now }
            requires pass { IsFreePass world.now number pass }
            requires units { (1 ≤ work.units) × (work.units ≤ length config.now.units) }
            ensures { IfOk result (λ asked. IsFreePass world.entry.now number asked.pass) }
        { ask_all(rt, alloc, config, world, pass, work, number) },
        || -> Result<Done, OutOfMemory>
            requires sync { IsSync R.row }
            requires config { world.now.config ≡ config.now }
            requires root { IsRootOf world.now root }
            requires made { root.made ≡ number + 1 }
            requires few { number + 1 + others ≤ 65_535 }
            requires units { (1 ≤ work.units) × (work.units ≤ length config.now.units) }
            ensures root { IfOk result (λ done. IsRootOf world.entry.now done.root) }
            ensures out { IfOk result (λ done. length done.root.out ≡ length root.out) }
        { ask_side_by_side(rt, alloc, config, world, root, work, number + 1, others) },
    );
    let Asked { pass, answers } = asked?;
    let mut done = done?;
    world.join(&mut done.root, pass);
    done.answers.push(answers)?;
    Ok(done)
}
