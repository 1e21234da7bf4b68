// The nodes and the consoles in the order of their numbers.
use crate::RowFiles;
use file_calls::listing::Listing;
use mck_word::Pid;

impl Listing for RowFiles {
    fn node_at(&self, place: u64) -> Option<u64> {
        let row = self.nodes.as_slice().get(place as usize)?;
        Some(row.0)
    }

    fn name(&self, node: u64) -> Option<&[u8]> {
        self.nodes.get(node)?.name()
    }

    fn console_at(&self, place: u64) -> Option<Pid> {
        let guest = self.consoles.guest_at(place)?;
        Some(Pid(guest))
    }
}
