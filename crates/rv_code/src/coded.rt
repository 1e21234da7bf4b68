// An instruction.
ghost use Rattle.std.specs.Prelude.{IsTrue};
ghost use Rattle.isa_model.specs.Decode.{is_code};

use isa_model::Form;

/// An instruction: its form, kept with the fact that some word decodes to it.
#[derive(Clone, Copy, Debug)]
pub struct Ins {
    pub form: Form,
    pub ghost coded: { IsTrue (is_code form) },
}
