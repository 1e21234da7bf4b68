// How threads and processes end.
ghost use Rattle.std.specs.Prelude.{◌≡◌, length, Some};
ghost use Rattle.file_model.specs.Files.{Files, close_all};
ghost use Rattle.kernel_model.specs.LocalCalls.{code_of, dies_without_threads, note_first_code};
ghost use Rattle.kernel_model.specs.Nodes.{Thread as KernelThread, change_process, dies, set_does, thread_of, threads_of};
ghost use Rattle.kernel_model.specs.Traps.{life_ended, process_ended, script_sent, tells_parent};
ghost use Rattle.kernel_model.specs.declared.Does.TheVariants.{Ready};
ghost use Rattle.mck_word.specs.declared.End.TheVariants.{Exit};
ghost use Rattle.lwk_threads.specs.Threads.{live_threads};
ghost use Rattle.kernel_tables.specs.Room.{KeepsRoom};
ghost use Rattle.kernel_tables.specs.Shown.{node_of};
ghost use Rattle.kernel_tables.specs.Steps.{emptied, without_line};

use crate::passes;
use crate::tables::KernelTables;
use kernel_model::Does;
use mck_word::{End, Pid, Tid};

const SIGCHLD: u32 = 17;

#[tactic(auto, using(crate::proofs::Rows::process_at, crate::proofs::Rows::thread_at))]
impl KernelTables {
    /// How many threads of the process live.
    #[tactic(auto, using(crate::proofs::Living::live_shown))]
    pub fn live_threads(&self, p: Pid) -> u32
        ensures is { (files : Files) → result ≡ length (threads_of (node_of self.now files) p.0) }
        ensures kept { result ≡ live_threads p.0 self.now.threads.threads }
    {
        self.threads.live(p)
    }

    /// Notes the code that a thread of the process gives to exit, where it is the first, which has the number of the process.
    pub fn note_first_code(&mut self, t: Tid, p: Pid, code: u8)
        ensures node { (files : Files) (x : KernelThread) → x.process ≡ p.0 → node_of self.new files ≡ note_first_code t.0 x code (node_of self.old files) }
        ensures room { KeepsRoom self.old self.new }
    {
        if t.0 == p.0 {
            self.set_first_code(p, code);
        }
    }

    fn set_first_code(&mut self, p: Pid, code: u8)
        ensures node { (files : Files) → node_of self.new files ≡ change_process p.0 (λ x. record x { first_code = Some code }) (node_of self.old files) }
        ensures room { KeepsRoom self.old self.new }
    {
        self.processes.set_first_code(p, code);
    }

    /// The process, where it lives, dies with its first thread's code.
    fn dies_by_code(&mut self, p: Pid)
        ensures node { (files : Files) → node_of self.new files ≡ change_process p.0 (λ x. dies (Exit (code_of x)) x) (node_of self.old files) }
        ensures room { KeepsRoom self.old self.new }
    {
        self.processes.dies_by_code(p);
    }

    /// When the last thread of the process is gone, it dies with its first thread's code.
    pub fn dies_without_threads(&mut self, p: Pid)
        ensures node { (files : Files) → node_of self.new files ≡ dies_without_threads p.0 (node_of self.old files) }
        ensures room { KeepsRoom self.old self.new }
    {
        if self.live_threads(p) == 0 {
            self.dies_by_code(p);
        }
    }

    /// The process of the thread dies with that code, and the thread is Ready.
    pub fn exits_group(&mut self, t: Tid, code: u8)
        ensures node { (files : Files) → node_of self.new files ≡ change_process (thread_of (node_of self.old files) t.0).process (dies (Exit code)) (set_does t.0 Ready (node_of self.old files)) }
        ensures room { KeepsRoom self.old self.new }
    {
        let p = self.process_of_thread(t);
        self.set_does(t, Does::Ready);
        self.dies(p, End::Exit(code));
    }

    /// The process has no thread and no sleeper; its files are closed elsewhere.
    fn emptied(&mut self, p: Pid)
        ensures node { (files : Files) → node_of self.new (close_all p.0 files) ≡ emptied p.0 (node_of self.old files) }
        ensures room { KeepsRoom self.old self.new }
    {
        passes::end_all(&mut self.threads, p);
        self.sleepers.leave_process(p);
    }

    fn ended(&mut self, p: Pid)
        ensures node { (files : Files) → node_of self.new files ≡ change_process p.0 (λ x. record x { life = life_ended x.life }) (node_of self.old files) }
        ensures room { KeepsRoom self.old self.new }
    {
        self.processes.ends(p);
    }

    /// The parent, where it lives, gets signal 17.
    fn tells_parent(&mut self, parent: Pid)
        ensures node { (files : Files) → node_of self.new files ≡ tells_parent parent.0 (node_of self.old files) }
        ensures room { KeepsRoom self.old self.new }
    {
        if self.is_living(parent) {
            self.generate_for_process(parent, SIGCHLD);
        }
    }

    /// The process is Ended: it has no thread and no sleeper, and its parent gets signal 17. Its files are closed elsewhere.
    #[tactic(auto, unfolding(kernel_model::specs::Traps::process_ended))]
    pub fn process_ended(&mut self, p: Pid)
        ensures node { (files : Files) → node_of self.new (close_all p.0 files) ≡ process_ended p.0 (node_of self.old files) }
        ensures room { KeepsRoom self.old self.new }
    {
        let parent = self.parent(p);
        self.emptied(p);
        self.ended(p);
        self.tells_parent(parent);
    }

    /// The line of that index is sent.
    fn drop_line(&mut self, k: u32)
        ensures node { (files : Files) → node_of self.new files ≡ without_line k (node_of self.old files) }
        ensures room { KeepsRoom self.old self.new }
    {
        self.unsent.retain(|x| x.index != k);
    }

    /// The line of that index generates its signal for its process, and is sent.
    #[tactic(auto, unfolding(kernel_model::specs::Traps::script_sent))]
    pub fn script_sent(&mut self, k: u32)
        ensures node { (files : Files) → node_of self.new files ≡ script_sent k (node_of self.old files) }
        ensures room { KeepsRoom self.old self.new }
    {
        if let Some(line) = self.line(k) {
            let line = *line;
            self.drop_line(k);
            self.generate_for_process(line.process, line.signal);
        }
    }
}
