// The checks of each command, and the command that a line is.
ghost use Rattle.std.specs.Prelude.{◌≡◌, ◌≤◌, ◌<◌, IfOk};
ghost use Rattle.job_text.specs.TextLines.{LineGives};
ghost use Rattle.mck_word.specs.Numbers.{number_of};
ghost use Rattle.plan_text.specs.Lines.{WordsGive, boot_of, command_of, core_below, cpu_of, create_of, first_command, fits, instance_of, mem_of, next_command, node_again, order_of, release_of, turns_of};

use crate::plan::{Plan, PlanCommand, PlanLine};
use job_text::{LineError, Why, Words, in_range};
use mck_word::{Bytes, Items, read_number};
use std::alloc::Global;

const MOST_CORES: u64 = 64;

const MOST_FRAMES: u64 = 16_000;

const MOST_COMMANDS: usize = 64;

const MOST_INSTANCES: u64 = 8;

const MOST_TURNS: u64 = 1_000_000;

/// The node, by the first command.
#[tactic(auto, unfolding(crate::specs::Lines::first_command))]
pub fn first_command(alloc: Global, words: &Words) -> Result<Plan, Why>
    ensures { result ≡ first_command words.now }
{
    if words.at(0) != b"node".as_slice() {
        return Err(Why::Keyword);
    }
    if words.miscounts(2, 2) {
        return Err(Why::Count);
    }
    let cores = in_range(1, MOST_CORES, words.at(1))?;
    let frames = in_range(1, MOST_FRAMES, words.at(2))?;
    Ok(Plan {
        cores: cores as u32,
        frames: frames as u32,
        commands: Items::new(alloc),
    })
}

// Whether so many words stand behind the key, where one more command may stand behind `node`.
fn fits(count: usize, seen: usize, words: &Words) -> Result<(), Why>
    ensures { result ≡ fits count seen words.now }
{
    if words.miscounts(count, count) {
        return Err(Why::Count);
    }
    if MOST_COMMANDS <= seen {
        return Err(Why::TooMany);
    }
    Ok(())
}

fn read_instance(words: &Words) -> Result<u32, Why>
    ensures { result ≡ instance_of words.now }
{
    let instance = in_range(1, MOST_INSTANCES, words.at(1))?;
    Ok(instance as u32)
}

fn read_core(cores: u32, word: &[u8]) -> Result<u32, Why>
    ensures { result ≡ core_below cores (number_of word.now) }
{
    match read_number(word) {
        Some(core) if core < u64::from(cores) => Ok(core as u32),
        _ => Err(Why::Number),
    }
}

fn read_order(word: &[u8]) -> Result<u64, Why>
    ensures { result ≡ order_of (number_of word.now) }
{
    match read_number(word) {
        Some(order) => Ok(order),
        None => Err(Why::Number),
    }
}

#[tactic(auto, unfolding(crate::specs::Lines::create_of))]
fn read_create(seen: usize, words: &Words) -> Result<PlanCommand, Why>
    ensures { result ≡ create_of seen words.now }
{
    fits(1, seen, words)?;
    let instance = read_instance(words)?;
    Ok(PlanCommand::Create { instance })
}

#[tactic(auto, unfolding(crate::specs::Lines::cpu_of))]
fn read_cpu(cores: u32, seen: usize, words: &Words) -> Result<PlanCommand, Why>
    ensures { result ≡ cpu_of cores seen words.now }
{
    fits(2, seen, words)?;
    let instance = read_instance(words)?;
    let core = read_core(cores, words.at(2))?;
    Ok(PlanCommand::Cpu { instance, core })
}

#[tactic(auto, unfolding(crate::specs::Lines::mem_of))]
fn read_mem(seen: usize, words: &Words) -> Result<PlanCommand, Why>
    ensures { result ≡ mem_of seen words.now }
{
    fits(2, seen, words)?;
    let instance = read_instance(words)?;
    let frames = in_range(1, MOST_FRAMES, words.at(2))?;
    Ok(PlanCommand::Mem {
        instance,
        frames: frames as u32,
    })
}

#[tactic(auto, unfolding(crate::specs::Lines::boot_of))]
fn read_boot(alloc: Global, seen: usize, words: &Words) -> Result<PlanCommand, LineError>
    ensures { WordsGive result (boot_of seen words.now) }
{
    fits(3, seen, words)?;
    let instance = read_instance(words)?;
    let order = read_order(words.at(3))?;
    let job = Bytes::from_slice(alloc, words.at(2))?;
    Ok(PlanCommand::Boot {
        instance,
        job,
        order,
    })
}

#[tactic(auto, unfolding(crate::specs::Lines::turns_of))]
fn read_turns(seen: usize, words: &Words) -> Result<PlanCommand, Why>
    ensures { result ≡ turns_of seen words.now }
{
    fits(1, seen, words)?;
    let count = in_range(1, MOST_TURNS, words.at(1))?;
    Ok(PlanCommand::Turns {
        count: count as u32,
    })
}

#[tactic(auto, unfolding(crate::specs::Lines::release_of))]
fn read_release(seen: usize, words: &Words) -> Result<PlanCommand, Why>
    ensures { result ≡ release_of seen words.now }
{
    fits(1, seen, words)?;
    let instance = read_instance(words)?;
    Ok(PlanCommand::Release { instance })
}

// `node` stands once.
fn node_again(words: &Words) -> Why
    ensures { result ≡ node_again words.now }
{
    if words.miscounts(2, 2) {
        Why::Count
    } else {
        Why::Repeat
    }
}

#[tactic(auto, unfolding(crate::specs::Lines::command_of))]
fn read_command(
    alloc: Global,
    cores: u32,
    seen: usize,
    words: &Words,
) -> Result<PlanCommand, LineError>
    ensures { WordsGive result (command_of cores seen words.now) }
{
    let key = words.at(0);
    if key == b"create".as_slice() {
        Ok(read_create(seen, words)?)
    } else if key == b"cpu".as_slice() {
        Ok(read_cpu(cores, seen, words)?)
    } else if key == b"mem".as_slice() {
        Ok(read_mem(seen, words)?)
    } else if key == b"boot".as_slice() {
        read_boot(alloc, seen, words)
    } else if key == b"turns".as_slice() {
        Ok(read_turns(seen, words)?)
    } else if key == b"release".as_slice() {
        Ok(read_release(seen, words)?)
    } else if key == b"node".as_slice() {
        Err(LineError::Broken(node_again(words)))
    } else {
        Err(LineError::Broken(Why::Keyword))
    }
}

/// A command behind the first one.
#[tactic(auto, unfolding(crate::specs::Lines::next_command))]
pub fn next_command(
    alloc: Global,
    plan: &mut Plan,
    line: u64,
    words: &Words,
) -> Result<(), LineError>
    ensures { LineGives plan.new result (next_command plan.old line words.now) }
{
    let command = read_command(alloc, plan.cores, plan.commands.len(), words)?;
    plan.commands.push(PlanLine { line, command })?;
    Ok(())
}
