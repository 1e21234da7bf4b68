// The calls of a process's threads.
ghost use Rattle.kernel_model.specs.Progress as calls;
ghost use Rattle.kernel_model.specs.Progress.{has_piece, next_kind};
ghost use Rattle.kernel_model.specs.Steps.{active, answer_in, blocked, holds_of};
ghost use Rattle.one_files.specs.Seen.{seen};
ghost use Rattle.one_kernel.specs.Parts.{shown_call};
ghost use Rattle.one_kernel.specs.Standings.{stood};
ghost use Rattle.std.specs.Prelude.{◌≡◌, ◌||◌, is_some, not};

use call_progress::Progress;
use file_model::Readiness;
use one_files::RowFiles;

/// How a call stands: under way, waiting, or ended with its answer.
#[derive(Clone, Copy, PartialEq, Eq, Debug)]
pub enum Standing {
    Active,
    Blocked,
    Over(i64),
}

/// The call of a thread; it is marked once its interruption was asked for.
#[derive(Drop)]
pub struct Call {
    pub marked: bool,
    pub standing: Standing,
    pub progress: Progress,
}

/// How a call that is under way stands after a step that gives it this answer, or none.
pub fn stood(ended: Option<i64>) -> Standing
    ensures { result ≡ stood ended }
{
    match ended {
        Some(answer) => Standing::Over(answer),
        None => Standing::Active,
    }
}

fn is_ready(kind: Readiness) -> bool
    ensures { result ≡ calls.is_ready kind }
{
    matches!(kind, Readiness::Ready)
}

fn is_not_ready(kind: Readiness) -> bool
    ensures { result ≡ calls.is_not_ready kind }
{
    matches!(kind, Readiness::NotReady)
}

fn is_file_step(kind: Readiness) -> bool
    ensures { result ≡ calls.is_file_step kind }
{
    matches!(kind, Readiness::FileStep)
}

impl Call {
    /// Whether the call is under way and can move its next piece, as far as the page is there.
    pub(crate) fn can_move(&self, files: &RowFiles) -> bool
        ensures { result ≡ holds_of (active (shown_call self.now).status) (λ p. calls.is_ready (next_kind (seen files.now) p)) }
    {
        match self.standing {
            Standing::Active => is_ready(self.progress.next_kind(files)),
            Standing::Blocked | Standing::Over(_) => false,
        }
    }

    /// Whether the call is under way and has a piece.
    pub(crate) fn has_piece(&self) -> bool
        ensures { result ≡ holds_of (active (shown_call self.now).status) has_piece }
    {
        match self.standing {
            Standing::Active => self.progress.has_piece(),
            Standing::Blocked | Standing::Over(_) => false,
        }
    }

    /// Whether the call is under way and its next step is a file step.
    pub(crate) fn has_file_step(&self, files: &RowFiles) -> bool
        ensures { result ≡ holds_of (active (shown_call self.now).status) (λ p. calls.is_file_step (next_kind (seen files.now) p)) }
    {
        match self.standing {
            Standing::Active => is_file_step(self.progress.next_kind(files)),
            Standing::Blocked | Standing::Over(_) => false,
        }
    }

    /// Whether the call is under way and has to wait.
    pub(crate) fn has_to_wait(&self, files: &RowFiles) -> bool
        ensures { result ≡ holds_of (active (shown_call self.now).status) (λ p. calls.is_not_ready (next_kind (seen files.now) p)) }
    {
        match self.standing {
            Standing::Active => is_not_ready(self.progress.next_kind(files)),
            Standing::Blocked | Standing::Over(_) => false,
        }
    }

    /// Whether the call, which waited, can go on or be interrupted.
    pub(crate) fn waits_no_longer(&self, files: &RowFiles) -> bool
        ensures { result ≡ holds_of (blocked (shown_call self.now).status) (λ p. self.now.marked || not (calls.is_not_ready (next_kind (seen files.now) p))) }
    {
        match self.standing {
            Standing::Blocked => self.marked || !is_not_ready(self.progress.next_kind(files)),
            Standing::Active | Standing::Over(_) => false,
        }
    }

    /// Whether the call has ended.
    pub(crate) fn is_over(&self) -> bool
        ensures { result ≡ is_some (answer_in (shown_call self.now).status) }
    {
        matches!(self.standing, Standing::Over(_))
    }
}
