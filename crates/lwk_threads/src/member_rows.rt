// What is kept of each process's threads: how many live, and which of the sixteen places they have.
ghost use Rattle.std.specs.Prelude.{◌≡◌, ◌≤◌, ◌<◌, ◌+◌, not, slice_index_or, false};
ghost use Rattle.kernel_model.specs.Nodes.{most_threads};
ghost use Rattle.mck_word.specs.Lists.{count_from, find_or};
ghost use Rattle.mck_word.specs.Maps.{at};
ghost use Rattle.lwk_threads.specs.Threads.{joined, parted, peers_in};

use key_rows::Rows;
use mck_word::Pid;

/// The live threads of a process: how many, and which places are taken.
#[derive(Clone, Copy, PartialEq, Eq, Debug)]
pub struct Peers {
    pub live: u32,
    pub taken: [bool; 16],
}

/// The threads of the process.
fn group_of(groups: &Rows<Peers>, pid: Pid) -> Peers
    ensures { result ≡ peers_in (at groups.now.map pid.0) }
{
    match groups.get(pid.0 as u64) {
        Some(group) => *group,
        None => Peers {
            live: 0,
            taken: [false; 16],
        },
    }
}

/// A thread joins the process at the place.
pub fn join(groups: &mut Rows<Peers>, pid: Pid, place: u32)
    requires room { 1 ≤ groups.old.spare }
    requires few { (peers_in (at groups.old.map pid.0)).live < most_threads }
    requires within { place < most_threads }
    ensures rows { groups.new.map ≡ joined pid.0 place groups.old.map }
    ensures takes { groups.old.spare ≤ groups.new.spare + 1 }
{
    let mut group = group_of(groups, pid);
    group.live += 1;
    group.taken[place as usize] = true;
    groups.put(pid.0 as u64, group);
}

/// The thread at the place leaves the process.
pub fn part(groups: &mut Rows<Peers>, pid: Pid, place: u32)
    requires some { 1 ≤ (peers_in (at groups.old.map pid.0)).live }
    requires within { place < most_threads }
    ensures rows { groups.new.map ≡ parted pid.0 place groups.old.map }
    ensures room { groups.old.spare ≤ groups.new.spare }
{
    let mut group = group_of(groups, pid);
    group.live -= 1;
    group.taken[place as usize] = false;
    if groups.get(pid.0 as u64).is_some() {
        if group.live == 0 {
            let _ = groups.remove(pid.0 as u64);
        } else {
            groups.set(pid.0 as u64, group);
        }
    }
}

/// The lowest place that is free.
fn lowest_place(group: &Peers) -> u32
    requires { group.now.live < most_threads }
    ensures lowest { result ≡ find_or (λ n. not (slice_index_or group.now.taken n false)) (count_from 0 group.now.live) group.now.live }
    ensures within { result ≤ group.now.live }
{
    for n in 0..group.live {
        if !group.taken[n as usize] {
            return n;
        }
    }
    group.live
}

/// The lowest place that is free in the process.
pub fn place_among(groups: &Rows<Peers>, pid: Pid) -> u32
    requires { (peers_in (at groups.now.map pid.0)).live < most_threads }
    ensures lowest { result ≡ find_or (λ n. not (slice_index_or (peers_in (at groups.now.map pid.0)).taken n false)) (count_from 0 (peers_in (at groups.now.map pid.0)).live) (peers_in (at groups.now.map pid.0)).live }
    ensures within { result ≤ (peers_in (at groups.now.map pid.0)).live }
{
    let group = group_of(groups, pid);
    lowest_place(&group)
}
