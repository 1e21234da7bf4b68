// The processes of a node by number, beside the number of their instructions.
ghost use Rattle.std.specs.Prelude.{◌≡◌, ◌≤◌, ◌<◌, ◌+◌, ◌^◌, OnOk, Some, true, None, ℕ};
ghost use Rattle.std.specs.Option.{option_copied};
ghost use Rattle.kernel_model.specs.Nodes.{dies_from};
ghost use Rattle.kernel_model.specs.Traps.{life_ended};
ghost use Rattle.kernel_model.specs.SignalSets.{with_signal as set_with, without_signal as set_without};
ghost use Rattle.mck_word.specs.declared.End.TheVariants.{Exit};
ghost use Rattle.lwk_signals.specs.Actions.{with_action_at};
ghost use Rattle.mck_word.specs.Maps.{at, change, count, entries, no_rows, put};
ghost use Rattle.kernel_tables.specs.Totals.{counted, first_code_of, instructions_in};

use kernel_model::{Action, Life};
use key_rows::Rows;
use lwk_signals::{Actions, with_signal, without_signal};
use mck_flags::SigSet;
use mck_word::{End, NoMemory, Pid};
use std::alloc::Global;
use std::marker::Model;

/// A process of the node. `parent` is 0 for a guest, `waited` says that its end was waited for, `first_code` is the code that its first
/// thread gave to exit.
#[derive(Drop)]
pub struct Process {
    pub parent: Pid,
    pub waited: bool,
    pub first_code: Option<u8>,
    pub life: Life,
    pub instructions: u64,
    pub actions: Actions,
    pub pending: SigSet,
    pub program_break: u64,
    pub heap_base: u64,
}

/// The processes by number, seen as the map beside the room for more. The instructions of all together are kept, so that they aren't
/// summed.
#[derive(Drop)]
pub struct Processes {
    rows: Rows<Process>,
    instructions: u64,
}

impl Model for Processes {
    ghost use Rattle.key_rows.specs.Table.{Table, table_code};
    ghost use Rattle.kernel_tables.specs.declared.process_rows.Process.{Process};
    ghost use Rattle.kernel_tables.specs.contracts.process_rows.Process as process;
    ghost use Rattle.kernel_tables.specs.Totals.{IsProcesses};

    ghost Value = { Table Process };

    ghost coded = { table_code process.the_row.coded };

    ghost view = { λ a. a.rows };

    ghost invariant = { λ a. IsProcesses a.instructions a.rows.map };
}

/// The instructions of the process, or 0 where there is none.
fn instructions_at(rows: &Rows<Process>, p: Pid) -> u64
    ensures is { result ≡ counted (at rows.now.map p.0) }
    ensures within { result ≤ instructions_in rows.now.map }
{
    match rows.get(p.0 as u64) {
        Some(x) => x.instructions,
        None => 0,
    }
}

/// The code that the first thread of the process gave, or 0.
fn first_code_of(x: &Process) -> u8
    ensures { result ≡ first_code_of x.now }
{
    x.first_code.unwrap_or(0)
}

impl Processes {
    /// No processes. Can't fail.
    pub fn new(alloc: Global) -> Processes
        ensures { result ≡ record { map = no_rows; spare = 0 } }
    {
        Processes {
            rows: Rows::new(alloc),
            instructions: 0,
        }
    }

    /// The process of that number: None exactly where there is none.
    pub fn process(&self, p: Pid) -> Option<&Process>
        ensures { option_copied result ≡ at self.now.map p.0 }
    {
        self.rows.get(p.0 as u64)
    }

    /// The processes in the order of their numbers.
    pub fn rows(&self) -> &[(u64, Process)]
        ensures rows { result.now ≡ entries self.now.map }
        ensures small { (k : ℕ) → 2 ^ 32 ≤ k → at self.now.map k ≡ None }
    {
        self.rows.as_slice()
    }

    /// How many processes there are.
    pub fn count(&self) -> usize
        ensures { result ≡ count self.now.map }
    {
        self.rows.len()
    }

    /// The instructions of all processes together.
    pub fn instructions(&self) -> u64
        ensures { result ≡ instructions_in self.now.map }
    {
        self.instructions
    }

    /// Makes room for one process. The contents stay, also where memory lacks.
    pub fn reserve(&mut self) -> Result<(), NoMemory>
        ensures same { self.new.map ≡ self.old.map }
        ensures grows { self.old.spare ≤ self.new.spare }
        ensures room { OnOk result (1 ≤ self.new.spare) }
    {
        if self.rows.reserve(1).is_err() {
            return Err(NoMemory);
        }
        Ok(())
    }

    /// The process, where it lives, dies with that end.
    pub fn dies(&mut self, p: Pid, end: End)
        ensures { self.new ≡ record self.old { map = change self.old.map p.0 (λ x. record x { life = dies_from end x.life }) } }
    {
        if self.rows.get(p.0 as u64).is_some() {
            let row = self.rows.row_mut(p.0 as u64);
            if row.life == Life::Living {
                row.life = Life::Dying(end);
            }
        }
    }

    /// The process, where it lives, dies with the code that its first thread gave, or 0.
    pub fn dies_by_code(&mut self, p: Pid)
        ensures { self.new ≡ record self.old { map = change self.old.map p.0 (λ x. record x { life = dies_from (Exit (first_code_of x)) x.life }) } }
    {
        if self.rows.get(p.0 as u64).is_some() {
            let row = self.rows.row_mut(p.0 as u64);
            if row.life == Life::Living {
                row.life = Life::Dying(End::Exit(first_code_of(row)));
            }
        }
    }

    /// Counts instructions of the process.
    pub fn add_instructions(&mut self, p: Pid, n: u64)
        requires { instructions_in self.old.map + n < 2 ^ 64 }
        ensures { self.new ≡ record self.old { map = change self.old.map p.0 (λ x. record x { instructions = x.instructions + n }) } }
    {
        if self.rows.get(p.0 as u64).is_some() {
            let row = self.rows.row_mut(p.0 as u64);
            row.instructions += n;
            self.instructions += n;
        }
    }

    /// Notes the code that the first thread of the process gave to exit.
    pub fn set_first_code(&mut self, p: Pid, code: u8)
        ensures { self.new ≡ record self.old { map = change self.old.map p.0 (λ x. record x { first_code = Some code }) } }
    {
        if self.rows.get(p.0 as u64).is_some() {
            let row = self.rows.row_mut(p.0 as u64);
            row.first_code = Some(code);
        }
    }

    /// Notes that the end of the process was waited for.
    pub fn set_waited(&mut self, p: Pid)
        ensures { self.new ≡ record self.old { map = change self.old.map p.0 (λ x. record x { waited = true }) } }
    {
        if self.rows.get(p.0 as u64).is_some() {
            let row = self.rows.row_mut(p.0 as u64);
            row.waited = true;
        }
    }

    /// A signal is pending for the process.
    pub fn pend(&mut self, p: Pid, signal: u32)
        requires least { 1 ≤ signal }
        requires most { signal ≤ 64 }
        ensures { self.new ≡ record self.old { map = change self.old.map p.0 (λ x. record x { pending = record { 0 = set_with signal x.pending.0 } }) } }
    {
        if self.rows.get(p.0 as u64).is_some() {
            let row = self.rows.row_mut(p.0 as u64);
            row.pending = with_signal(signal, row.pending);
        }
    }

    /// A signal is pending for the process no longer.
    pub fn unpend(&mut self, p: Pid, signal: u32)
        requires least { 1 ≤ signal }
        requires most { signal ≤ 64 }
        ensures { self.new ≡ record self.old { map = change self.old.map p.0 (λ x. record x { pending = record { 0 = set_without signal x.pending.0 } }) } }
    {
        if self.rows.get(p.0 as u64).is_some() {
            let row = self.rows.row_mut(p.0 as u64);
            row.pending = without_signal(signal, row.pending);
        }
    }

    /// Gives a signal another action.
    pub fn set_action(&mut self, p: Pid, signal: u32, a: Action)
        requires least { 1 ≤ signal }
        requires most { signal ≤ 64 }
        ensures { self.new ≡ record self.old { map = change self.old.map p.0 (λ x. record x { actions = with_action_at x.actions signal a }) } }
    {
        if self.rows.get(p.0 as u64).is_some() {
            let row = self.rows.row_mut(p.0 as u64);
            row.actions.set(signal, a);
        }
    }

    /// Gives the process another program break.
    pub fn set_break(&mut self, p: Pid, a: u64)
        ensures { self.new ≡ record self.old { map = change self.old.map p.0 (λ x. record x { program_break = a }) } }
    {
        if self.rows.get(p.0 as u64).is_some() {
            let row = self.rows.row_mut(p.0 as u64);
            row.program_break = a;
        }
    }

    /// The process, where it dies, is Ended.
    pub fn ends(&mut self, p: Pid)
        ensures { self.new ≡ record self.old { map = change self.old.map p.0 (λ x. record x { life = life_ended x.life }) } }
    {
        if self.rows.get(p.0 as u64).is_some() {
            let row = self.rows.row_mut(p.0 as u64);
            if let Life::Dying(end) = row.life {
                row.life = Life::Ended(end);
            }
        }
    }

    /// Puts a process in, in place of the one of that number where there is one.
    pub fn put(&mut self, p: Pid, process: Process)
        requires room { 1 ≤ self.old.spare }
        requires fits { instructions_in self.old.map + process.instructions < 2 ^ 64 }
        ensures map { self.new.map ≡ put self.old.map p.0 process }
        ensures takes { self.old.spare ≤ self.new.spare + 1 }
    {
        let before = instructions_at(&self.rows, p);
        self.instructions = self.instructions + process.instructions - before;
        self.rows.put(p.0 as u64, process);
    }
}
