// Laws of memory through a table.
ghost use Rattle.hybrid_model.specs.Sides.{Row};
ghost use Rattle.hybrid_model.specs.Spaces.{written_back};
ghost use Rattle.lwk_space.specs.Frames.{frames_map};
ghost use Rattle.lwk_space.specs.Lacks.{OthersStay, memory};
ghost use Rattle.lwk_space.specs.Rows.{FramesIn};
ghost use Rattle.mck_word.specs.Maps.{Map};
ghost use Rattle.std.specs.Prelude.{◌≡◌, ℕ, List, length};

/// Where the frames that no row has stay, the frames are those before with the memory that the table shows written back.
pub fn stores_are_written_back()
    ensures { (rows : Map Row) (before after : List (List ℕ)) → FramesIn rows before → OthersStay rows before after → length after ≡ length before
        → frames_map after ≡ written_back rows (memory rows after) (frames_map before) }
{}
