// The right that an access needs.
ghost use Rattle.std.specs.Prelude.{◌≡◌};
ghost use Rattle.isa_model.specs.Memory.{allows};

use bitflags::Flags;
use mck_flags::Rights;
use mck_word::Access;

/// Whether the rights have what the access needs.
#[inline(always)]
pub fn allows(access: Access, rights: Rights) -> bool
    ensures { result ≡ allows access rights }
{
    match access {
        Access::Read => rights.contains(Rights::READ),
        Access::Write => rights.contains(Rights::WRITE),
        Access::Exec => rights.contains(Rights::EXEC),
    }
}
