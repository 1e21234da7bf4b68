// Nodes of the tree.
ghost use Rattle.std.specs.Prelude.{◌≡◌, ◌≤◌, ◌+◌, [], None, length};
ghost use Rattle.file_model.specs.Acts as acts;
ghost use Rattle.file_model.specs.Files.{made, set_bytes};
ghost use Rattle.file_model.specs.Paths.{child};
ghost use Rattle.file_model.specs.Streams.{with_bytes_at};
ghost use Rattle.file_model.specs.declared.descriptions.Target.TheVariants.{OfNode};
ghost use Rattle.linux_files.specs.Rooms.{can_write_parts, room_of_parts};
ghost use Rattle.linux_files.specs.Seen.{IsStore, seen_parts};

use crate::parts::Parts;

impl Parts {
    /// Makes a node without bytes, with a name in a directory.
    pub(crate) fn make(&mut self, parent: u64, name: &[u8], directory: bool)
        requires store { IsStore self.old }
        requires room { 1 ≤ (room_of_parts self.old).nodes }
        requires short { length name.now ≤ 255 }
        requires absent { child (seen_parts self.old) parent name.now ≡ None }
        ensures files { seen_parts self.new ≡ made parent name.now directory (seen_parts self.old) }
        ensures opens { (room_of_parts self.new).opens ≡ (room_of_parts self.old).opens }
        ensures store { IsStore self.new }
    {
        self.tree.add(parent, name, directory);
    }

    /// Takes all bytes of a file away.
    pub(crate) fn empty(&mut self, node: u64)
        requires { IsStore self.old }
        ensures files { seen_parts self.new ≡ set_bytes node [] (seen_parts self.old) }
        ensures room { room_of_parts self.new ≡ room_of_parts self.old }
        ensures store { IsStore self.new }
    {
        self.tree.cut(node);
    }

    /// Takes a node's name away. Where it isn't open either, it goes.
    pub(crate) fn unlink(&mut self, node: u64)
        requires { IsStore self.old }
        ensures files { seen_parts self.new ≡ acts.unlink node (seen_parts self.old) }
        ensures store { IsStore self.new }
    {
        self.tree.unlink(node);
        self.settle(&[]);
    }

    /// Writes bytes into a file at an offset, in place.
    pub(crate) fn write_file(&mut self, node: u64, offset: u64, from: &[u8])
        requires store { IsStore self.old }
        requires room { can_write_parts self.old (OfNode node) (offset + length from.now) }
        ensures files { seen_parts self.new ≡ with_bytes_at node offset from.now (seen_parts self.old) }
        ensures store { IsStore self.new }
    {
        self.tree.write(node, offset, from);
    }
}
