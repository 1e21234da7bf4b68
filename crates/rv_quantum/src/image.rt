// Images of pages, and who lends them.
ghost use Rattle.rv_quantum.specs.Images.{as_left};
ghost use Rattle.std.specs.Prelude.{◌≡◌, false};

use mck_flags::Rights;

/// Who lends a page's rights and bytes as they are now.
///
/// It tells nothing: None is an absent page, and whoever uses the images finds what differs.
pub trait Pages {
    fn image(&mut self, page: u64, into: &mut [u8; 4096]) -> Option<Rights>;
}

/// A page as it was seen and as quanta left it; without rights it is absent.
#[derive(Drop)]
pub struct Image {
    pub page: u64,
    pub rights: Option<Rights>,
    pub first: [u8; 4096],
    pub last: [u8; 4096],
    pub written: bool,
}

impl Image {
    /// It is from now on as it is.
    pub fn renew(&mut self)
        requires clean { self.old.written ≡ false → self.old.last ≡ self.old.first }
        ensures page { self.new.page ≡ self.old.page }
        ensures left { as_left self.new ≡ as_left self.old }
        ensures fresh { self.new.last ≡ self.new.first }
    {
        if self.written {
            self.first = self.last;
            self.written = false;
        }
    }
}

/// Asks for a page.
pub fn asked<P: Pages>(pages: &mut P, page: u64) -> Image
    ensures page { result.page ≡ page }
    ensures fresh { result.last ≡ result.first }
    ensures written { result.written ≡ false }
{
    let mut first = [0; 4096];
    let rights = pages.image(page, &mut first);
    Image {
        page,
        rights,
        first,
        last: first,
        written: false,
    }
}
