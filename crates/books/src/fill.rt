//! How far one book is filled.
ghost use Rattle.std.specs.Prelude.{◌≡◌};

#[derive(Clone, Copy)]
pub struct Fill {
    // places in use
    pub(crate) used: usize,
    // accepted puts
    pub(crate) total: u32,
}

impl Fill {
    // A `const`, which a derived `Default` is not.
    pub const fn empty() -> Fill
        ensures { (result.used ≡ 0) × (result.total ≡ 0) }
    {
        Fill { used: 0, total: 0 }
    }
}
