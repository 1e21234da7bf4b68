// What nothing uses any more goes.
ghost use Rattle.std.specs.Prelude.{◌≡◌, ◌||◌, IfSome, cond, true};
ghost use Rattle.file_model.specs.Files.{settled};
ghost use Rattle.linux_files.specs.Seen.{DescriptionsUsed, IsKept, IsStore, has_end, is_used, seen_parts};
ghost use Rattle.linux_files.specs.Steps.{AreUsed, Follows, IsUnused, is_suspect, unused_row};
ghost use Rattle.linux_files.specs.declared.parts.Loose.TheVariants.{AllOpen};
ghost use Rattle.mck_word.specs.Maps.{at, cut};

use crate::parts::{Loose, Parts};
use file_model::Target;

impl Parts {
    /// Takes a pipe out of which no end is open.
    fn settle_pipe(&mut self, pipe: u64)
        ensures map { self.new.pipes.map ≡ cond (has_end self.old pipe) self.old.pipes.map (cut self.old.pipes.map pipe) }
        ensures rest { self.new ≡ record self.old { pipes = self.new.pipes } }
    {
        if self.has_end(pipe) {
            return;
        }
        if self.pipes.has(pipe) {
            self.pipes.remove(pipe);
        }
    }

    /// Takes a description out that nothing uses, and what it alone was open on.
    fn drop_description(&mut self, d: u64)
        requires kept { IsKept self.old }
        requires unused { IsUnused self.old d }
        ensures follows { Follows self.old self.new }
        ensures gone { self.new.descriptions.map ≡ cut self.old.descriptions.map d }
    {
        let file = self.descriptions.remove(d);
        match file.get().target {
            Target::OfNode(node) => self.tree.release(node),
            Target::ReadEnd(pipe) => {
                self.readers.lower(pipe as u64);
                self.settle_pipe(pipe as u64);
            }
            Target::WriteEnd(pipe) => {
                self.writers.lower(pipe as u64);
                self.settle_pipe(pipe as u64);
            }
            Target::OfConsole(_) => {}
        }
    }

    /// Whether a description is there that nothing uses.
    fn is_unused(&self, d: u64) -> bool
        ensures { result ≡ unused_row self.now d (at self.now.descriptions.map d) }
    {
        match self.descriptions.get(d) {
            Some(file) => file.get().calls == 0 && !self.named.has(d),
            None => false,
        }
    }

    /// Takes a description out, where nothing uses it.
    fn settle_description(&mut self, d: u64)
        requires { IsKept self.old }
        ensures follows { Follows self.old self.new }
        ensures used { IfSome (at self.new.descriptions.map d) (λ x. is_used self.new d x ≡ true) }
    {
        if self.is_unused(d) {
            self.drop_description(d);
        }
    }

    /// Takes out those of the descriptions that nothing uses.
    fn settle_some(&mut self, suspects: &[Option<u32>])
        requires { IsKept self.old }
        ensures follows { Follows self.old self.new }
        ensures used { AreUsed (is_suspect suspects.now) self.new }
    {
        for suspect in suspects {
            if let Some(d) = suspect {
                self.settle_description(*d as u64);
            }
        }
    }

    /// Takes out all descriptions that nothing uses.
    fn settle_all(&mut self)
        requires { IsKept self.old }
        ensures follows { Follows self.old self.new }
        ensures used { AreUsed (λ _. true) self.new }
    {
        let mut from = 0;
        while let Some(d) = self.descriptions.next(from) {
            self.settle_description(d);
            from = d + 1;
        }
    }

    /// Takes out all descriptions that nothing uses, each of which is among the suspects.
    fn settle_descriptions(&mut self, suspects: &[Option<u32>])
        requires kept { IsKept self.old }
        requires used { DescriptionsUsed (λ d. self.old.unsettled || is_suspect suspects.now d) self.old }
        ensures follows { Follows self.old self.new }
        ensures used { AreUsed (λ _. true) self.new }
    {
        if self.unsettled {
            self.settle_all();
        } else {
            self.settle_some(suspects);
        }
    }

    /// Takes out the pipes of which no end is open.
    fn settle_pipes(&mut self)
        requires { IsKept self.old }
        ensures kept { IsKept self.new }
        ensures settles { settled (seen_parts self.new) ≡ settled (seen_parts self.old) }
        ensures rest { self.new ≡ record self.old { pipes = self.new.pipes; loose = AllOpen } }
    {
        let loose = self.loose;
        self.loose = Loose::AllOpen;
        match loose {
            Loose::AllOpen => {}
            Loose::One(pipe) => self.settle_pipe(pipe as u64),
            Loose::Any => self.pipes.retain(&self.readers, &self.writers),
        }
    }

    /// Takes out what nothing uses any more: first the descriptions, each of which is among the suspects, then the unlinked nodes and
    /// the pipes that no description is open on.
    pub(crate) fn settle(&mut self, suspects: &[Option<u32>])
        requires kept { IsKept self.old }
        requires used { DescriptionsUsed (λ d. self.old.unsettled || is_suspect suspects.now d) self.old }
        ensures files { seen_parts self.new ≡ settled (seen_parts self.old) }
        ensures store { IsStore self.new }
    {
        self.settle_descriptions(suspects);
        self.unsettled = false;
        self.settle_pipes();
        self.tree.used();
    }
}
