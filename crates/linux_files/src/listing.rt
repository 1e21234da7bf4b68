// The nodes and the consoles in the order of their numbers.
use crate::LinuxFiles;
use file_calls::listing::Listing;
use mck_word::Pid;

impl Listing for LinuxFiles {
    fn node_at(&self, place: u64) -> Option<u64> {
        self.parts.tree.number_at(place)
    }

    fn name(&self, node: u64) -> Option<&[u8]> {
        self.parts.tree.name(node)
    }

    fn console_at(&self, place: u64) -> Option<Pid> {
        let guest = self.parts.consoles.guest_at(place)?;
        Some(Pid(guest))
    }
}
