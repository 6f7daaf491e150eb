//! Whether a port looks for rows, and leaves some.

ghost use Rattle.std.specs.Prelude.{◌≡◌, false};
ghost use Rattle.vsw_sole.specs.declared.keeping.Keeping.TheVariants.{Always};

use vsw_core::Core;

/// When a port looks for rows, and leaves some.
#[derive(Clone, Copy, Debug, PartialEq, Eq)]
pub enum Keeping {
    /// Whatever its layers are. Who exports rows wants them.
    Always,
    /// Unless a walk over the layers costs less than a row's answer (`Core::is_light`).
    WhereCheaper,
}

/// Whether no row is looked for or left at the layers of now.
pub(crate) fn is_light(keeping: Keeping, core: &Core) -> bool
    ensures { keeping ≡ Always → result ≡ false }
{
    match keeping {
        Keeping::Always => false,
        Keeping::WhereCheaper => core.is_light(),
    }
}
